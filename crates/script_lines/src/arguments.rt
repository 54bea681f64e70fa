// The words of a line, each as its place wants it.
ghost use Rattle.std.specs.Prelude.{◌≡◌, ◌==◌, ◌≤◌, ◌<◌, ◌^◌, drop, slice_get, IfOk};
ghost use Rattle.std.specs.Option.{option_copied};
ghost use Rattle.script_lines.specs.Text.{words_of};
ghost use Rattle.script_lines.specs.Arguments.{Number, Place, Colour, Hex, Uuid, number_of, place_of, colour_of};
ghost use Rattle.script_lines.specs.Places.{first, both, only, rank, nothing};
ghost use Rattle.script_lines.specs.Forms.{wid, point, side, client};

use crate::numbers::{colour, is_hex, is_name, number, signed};
use crate::text::next_word;
use crate::why::Why;
use xp_base::{Pixel, Wid};

/// The next word, where there is one, and what is after it.
pub fn next(words: &[u8]) -> (Option<&[u8]>, &[u8])
    ensures word { option_copied result.0 ≡ slice_get (words_of words.now) 0 }
    ensures rest { words_of result.1.now ≡ drop 1 (words_of words.now) }
{
    match next_word(words) {
        Some((word, words)) => (Some(word), words),
        None => (None, words),
    }
}

/// A number in this range.
pub fn long_of(word: Option<&[u8]>, low: u64, high: u64) -> Result<u64, Why>
    ensures value { result ≡ first (Number low high) number_of (option_copied word.entry) }
    ensures range { IfOk result (λ n. (low ≤ n) × (n ≤ high)) }
{
    let Some(word) = word else {
        return Err(Why::Count);
    };
    match number(word) {
        None => Err(Why::Number),
        Some(n) => {
            if n < low || n > high {
                return Err(Why::Range);
            }
            Ok(n)
        }
    }
}

fn number_of(word: Option<&[u8]>, low: u32, high: u32) -> Result<u32, Why>
    ensures value { result ≡ first (Number low high) number_of (option_copied word.entry) }
    ensures range { IfOk result (λ n. (low ≤ n) × (n ≤ high)) }
{
    let n = long_of(word, u64::from(low), u64::from(high))?;
    Ok(n as u32)
}

/// A number in this range, and the words after it.
pub fn number_in(words: &[u8], low: u32, high: u32) -> (Result<u32, Why>, &[u8])
    ensures value { result.0 ≡ first (Number low high) number_of (slice_get (words_of words.now) 0) }
    ensures rest { words_of result.1.now ≡ drop 1 (words_of words.now) }
{
    let (word, words) = next(words);
    (number_of(word, low, high), words)
}

/// A coordinate in a window, 0 to 4,095.
pub fn point_in(words: &[u8]) -> (Result<u32, Why>, &[u8])
    ensures value { result.0 ≡ first point number_of (slice_get (words_of words.now) 0) }
    ensures rest { words_of result.1.now ≡ drop 1 (words_of words.now) }
{
    number_in(words, 0, 4095)
}

/// A side, 1 to 4,096.
pub fn side_in(words: &[u8]) -> (Result<u32, Why>, &[u8])
    ensures value { result.0 ≡ first side number_of (slice_get (words_of words.now) 0) }
    ensures rest { words_of result.1.now ≡ drop 1 (words_of words.now) }
{
    number_in(words, 1, 4096)
}

/// A client's number, 0 to 99,999.
pub fn client_in(words: &[u8]) -> (Result<u32, Why>, &[u8])
    ensures value { result.0 ≡ first client number_of (slice_get (words_of words.now) 0) }
    ensures rest { words_of result.1.now ≡ drop 1 (words_of words.now) }
{
    number_in(words, 0, 99_999)
}

fn wid_of(word: Option<&[u8]>) -> Result<Wid, Why>
    ensures { result ≡ first wid number_of (option_copied word.entry) }
{
    let n = number_of(word, 1, 65_535)?;
    match Wid::new(i64::from(n)) {
        Some(wid) => Ok(wid),
        None => unreachable!(),
    }
}

/// A window's number.
pub fn wid_in(words: &[u8]) -> (Result<Wid, Why>, &[u8])
    ensures value { result.0 ≡ first wid number_of (slice_get (words_of words.now) 0) }
    ensures rest { words_of result.1.now ≡ drop 1 (words_of words.now) }
{
    let (word, words) = next(words);
    (wid_of(word), words)
}

fn place_of(word: Option<&[u8]>) -> Result<i32, Why>
    ensures { result ≡ first Place place_of (option_copied word.entry) }
{
    let Some(word) = word else {
        return Err(Why::Count);
    };
    match signed(word) {
        None => Err(Why::Number),
        Some(n) => {
            if n < -32_768 || n > 32_767 {
                return Err(Why::Range);
            }
            Ok(n as i32)
        }
    }
}

/// A coordinate of a window on the desktop, -32,768 to 32,767.
pub fn place_in(words: &[u8]) -> (Result<i32, Why>, &[u8])
    ensures value { result.0 ≡ first Place place_of (slice_get (words_of words.now) 0) }
    ensures rest { words_of result.1.now ≡ drop 1 (words_of words.now) }
{
    let (word, words) = next(words);
    (place_of(word), words)
}

fn colour_of(word: Option<&[u8]>) -> Result<Pixel, Why>
    ensures { result ≡ first Colour colour_of (option_copied word.entry) }
{
    let Some(word) = word else {
        return Err(Why::Count);
    };
    match colour(word) {
        None => Err(Why::Number),
        Some(c) => match Pixel::new(c) {
            Some(pixel) => Ok(pixel),
            None => unreachable!(),
        },
    }
}

pub fn colour_in(words: &[u8]) -> (Result<Pixel, Why>, &[u8])
    ensures value { result.0 ≡ first Colour colour_of (slice_get (words_of words.now) 0) }
    ensures rest { words_of result.1.now ≡ drop 1 (words_of words.now) }
{
    let (word, words) = next(words);
    (colour_of(word), words)
}

/// That a word is bytes in hexadecimal.
pub fn hex_of(word: Option<&[u8]>) -> Result<(), Why>
    ensures { result ≡ first Hex nothing (option_copied word.entry) }
{
    let Some(word) = word else {
        return Err(Why::Count);
    };
    if is_hex(word) {
        Ok(())
    } else {
        Err(Why::Number)
    }
}

/// That a word is a uuid.
pub fn name_of(word: Option<&[u8]>) -> Result<(), Why>
    ensures { result ≡ first Uuid nothing (option_copied word.entry) }
{
    let Some(word) = word else {
        return Err(Why::Count);
    };
    if is_name(word) {
        Ok(())
    } else {
        Err(Why::Number)
    }
}

fn rank(why: Why) -> u8
    ensures { result ≡ rank why }
{
    match why {
        Why::Count => 0,
        Why::Number => 1,
        _ => 2,
    }
}

/// Both, or the fault of the two that comes first.
pub fn both<A: Copy, B: Copy>(a: Result<A, Why>, b: Result<B, Why>) -> Result<(A, B), Why>
    ensures { result ≡ both a b }
{
    match (a, b) {
        (Ok(a), Ok(b)) => Ok((a, b)),
        (Ok(_), Err(why)) => Err(why),
        (Err(why), Ok(_)) => Err(why),
        (Err(a), Err(b)) => Err(if rank(a) <= rank(b) { a } else { b }),
    }
}

/// That, where no words are left.
pub fn only<A: Copy>(a: Result<A, Why>, words: &[u8]) -> Result<A, Why>
    ensures { result ≡ only a (words_of words.now) }
{
    match next_word(words) {
        None => a,
        Some(_) => Err(Why::Count),
    }
}
