// Words that are numbers or colours.
ghost use Rattle.std.specs.Prelude.{◌≡◌, ◌≤◌, ◌<◌, ◌^◌, length, IfSome};
ghost use Rattle.first_script.specs.Text.{digit, numeral, number, colour};

/// What a digit stands for, 0 to 15; 16 where the byte is none.
fn digit(byte: u8) -> u64
    ensures value { result ≡ digit byte }
    ensures small { result ≤ 16 }
{
    match byte {
        b'0'..=b'9' => u64::from(byte - b'0'),
        b'A'..=b'F' => u64::from(byte - b'A' + 10),
        b'a'..=b'f' => u64::from(byte - b'a' + 10),
        _ => 16,
    }
}

/// The number that a word of digits of this base stands for.
fn numeral(base: u64, word: &[u8]) -> Option<u64>
    requires base { base ≤ 16 }
    requires short { length word.now ≤ 10 }
    ensures value { result ≡ numeral base word.now }
    ensures small { IfSome result (λ n. n < 16 ^ length word.now) }
{
    let mut number = 0;
    for byte in word {
        let digit = digit(*byte);
        if digit >= base {
            return None;
        }
        number = base * number + digit;
    }
    Some(number)
}

/// 1 to 10 decimal digits.
#[tactic(auto, unfolding(crate::specs::Text::number))]
pub fn number(word: &[u8]) -> Option<u64>
    ensures { result ≡ number word.now }
{
    if word.is_empty() || word.len() > 10 {
        return None;
    }
    numeral(10, word)
}

/// Six hexadecimal digits.
#[tactic(auto, unfolding(crate::specs::Text::colour))]
pub fn colour(word: &[u8]) -> Option<u32>
    ensures value { result ≡ colour word.now }
    ensures small { IfSome result (λ n. n < 2 ^ 24) }
{
    if word.len() != 6 {
        return None;
    }
    let number = numeral(16, word)?;
    Some(number as u32)
}
