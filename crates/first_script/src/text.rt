// Lines and words of a text.
ghost use Rattle.std.specs.Prelude.{◌≡◌, ◌==◌, ◌<◌, ◌∷◌, length, position};
ghost use Rattle.std.specs.Option.{option_copied, option_map, MatchOption};
ghost use Rattle.first_script.specs.Text.{lines_of, words_left, IsWithout, IsCut};
ghost use Rattle.first_script.specs.Forms.{word_at};

/// The place of the first such byte.
fn place_of(text: &[u8], byte: u8) -> Option<usize>
    ensures { result ≡ position (λ other. other == byte) text.now }
{
    text.iter().position(|other| *other == byte)
}

/// What is before the first such byte, and what is after it.
fn cut(text: &[u8], byte: u8) -> Option<(&[u8], &[u8])>
    ensures { MatchOption result (IsWithout byte text.now) (λ x. IsCut byte text.now x.0.now x.1.now) }
{
    match place_of(text, byte) {
        Some(end) => Some((&text[..end], &text[end + 1..])),
        None => None,
    }
}

/// The first line, without the byte that ends it, and what is after that byte.
pub fn first_line(text: &[u8]) -> (&[u8], &[u8])
    requires { 0 < length text.now }
    ensures lines { lines_of text.now ≡ result.0.now ∷ lines_of result.1.now }
    ensures less { length result.1.now < length text.now }
{
    match cut(text, b'\n') {
        Some(parts) => parts,
        None => (text, &text[text.len()..]),
    }
}

/// The first word, and the words after it. What is left of a line is `None` after its last word.
pub fn word_at(words: Option<&[u8]>) -> Option<(&[u8], Option<&[u8]>)>
    ensures { option_map (λ x. (x.0.now, words_left (option_copied x.1))) result ≡ word_at (words_left (option_copied words.entry)) }
{
    let text = words?;
    match cut(text, b' ') {
        Some((word, rest)) => Some((word, Some(rest))),
        None => Some((text, None)),
    }
}

/// Whether no words are left.
pub fn is_ended(words: Option<&[u8]>) -> bool
    ensures { result ≡ (length (words_left (option_copied words.entry)) == 0) }
{
    match words {
        Some(_) => false,
        None => true,
    }
}
