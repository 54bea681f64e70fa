// Words that are numbers, colours, bytes or uuids.
ghost use Rattle.std.specs.Prelude.{◌≡◌, ◌≤◌, ◌<◌, ◌^◌, length, true, IfSome, IfOk};
ghost use Rattle.std.specs.List.{list_all};
ghost use Rattle.script_lines.specs.Numbers.{digit, are_digits, numeral, number, signed, colour, is_hex, bytes_of, is_name, is_between};

use std::alloc::Global;
use xp_base::NoMemory;

/// What a digit stands for, 0 to 15; 16 where the byte is none.
fn digit(byte: u8) -> u64
    ensures value { result ≡ digit byte }
    ensures small { result ≤ 16 }
{
    match byte {
        b'0'..=b'9' => u64::from(byte - b'0'),
        b'A'..=b'F' => u64::from(byte - b'A' + 10),
        b'a'..=b'f' => u64::from(byte - b'a' + 10),
        _ => 16,
    }
}

/// The number that a word of digits of this base stands for.
fn numeral(base: u64, word: &[u8]) -> Option<u64>
    requires base { base ≤ 16 }
    requires short { length word.now ≤ 10 }
    ensures value { result ≡ numeral base word.now }
    ensures small { IfSome result (λ n. n < 16 ^ length word.now) }
{
    let mut number = 0;
    for byte in word {
        let digit = digit(*byte);
        if digit >= base {
            return None;
        }
        number = base * number + digit;
    }
    Some(number)
}

/// 1 to 10 decimal digits.
#[tactic(auto, unfolding(crate::specs::Numbers::number))]
pub fn number(word: &[u8]) -> Option<u64>
    ensures value { result ≡ number word.now }
    ensures small { IfSome result (λ n. n < 2 ^ 40) }
{
    if word.is_empty() || word.len() > 10 {
        return None;
    }
    numeral(10, word)
}

/// The same, perhaps with a `-` before.
#[tactic(auto, unfolding(crate::specs::Numbers::signed))]
pub fn signed(word: &[u8]) -> Option<i64>
    ensures { result ≡ signed word.now }
{
    match word {
        [] => None,
        [b'-', digits @ ..] => {
            let number = number(digits)?;
            Some(-(number as i64))
        }
        _ => {
            let number = number(word)?;
            Some(number as i64)
        }
    }
}

/// Six hexadecimal digits.
#[tactic(auto, unfolding(crate::specs::Numbers::colour))]
pub fn colour(word: &[u8]) -> Option<u32>
    ensures value { result ≡ colour word.now }
    ensures small { IfSome result (λ n. n < 2 ^ 24) }
{
    if word.len() != 6 {
        return None;
    }
    let number = numeral(16, word)?;
    Some(number as u32)
}

fn are_hex_digits(word: &[u8]) -> bool
    ensures { result ≡ are_digits 16 word.now }
{
    word.iter().all(|byte| digit(*byte) < 16)
}

/// An even number of hexadecimal digits, 2 to 65,536.
#[tactic(auto, unfolding(crate::specs::Numbers::is_hex))]
pub fn is_hex(word: &[u8]) -> bool
    ensures { result ≡ is_hex word.now }
{
    if word.len() < 2 || word.len() > 65_536 || word.len() % 2 != 0 {
        return false;
    }
    are_hex_digits(word)
}

/// The bytes that hexadecimal digits stand for, two digits each.
pub fn bytes_of(alloc: Global, word: &[u8]) -> Result<Vec<u8>, NoMemory>
    requires { are_digits 16 word.now ≡ true }
    ensures { IfOk result (λ bytes. bytes.items ≡ bytes_of word.now) }
{
    let mut bytes = Vec::new(alloc);
    let mut place = 0;
    while place + 1 < word.len() {
        let byte = 16 * digit(word[place]) + digit(word[place + 1]);
        bytes.push(byte as u8)?;
        place += 2;
    }
    Ok(bytes)
}

fn are_name_bytes(word: &[u8]) -> bool
    ensures { result ≡ list_all (is_between 33 126) word.now }
{
    word.iter().all(|byte| *byte >= 33 && *byte <= 126)
}

/// A uuid: 1 to 64 bytes from 0x21 to 0x7E.
#[tactic(auto, unfolding(crate::specs::Numbers::is_name))]
pub fn is_name(word: &[u8]) -> bool
    ensures { result ≡ is_name word.now }
{
    !word.is_empty() && word.len() <= 64 && are_name_bytes(word)
}
