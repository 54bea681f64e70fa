// Integers, and lengths of byte strings.
ghost use Rattle.std.specs.Prelude.{◌≡◌, ℕ, ◌+◌, ◌≤◌, ◌<◌, ◌^◌, length, List, [], true, IfOk, MatchOption, slice_index};
ghost use Rattle.bencode_values.specs.Marks.{mark_of};
ghost use Rattle.bencode_values.specs.Reading.{Open, range_of};
ghost use Rattle.bencode_values.specs.Steps.{going, sign, minus, zero_int, number, zero_length, size, string, deliver_key, int_of};
ghost use Rattle.bencode_values.specs.Coming.{Comes};
ghost use Rattle.bencode_values.specs.declared.value.Key.TheVariants as K;

use crate::mark::{Mark, mark_at};
use crate::reading::Why;
use crate::stop::Stop;

/// The longest byte string.
const LONGEST: usize = 67_108_864;

/// What the byte at this place is, if the bytes go so far.
pub(crate) fn mark_in(bytes: &[u8], place: usize) -> Option<Mark>
    ensures { MatchOption result (length bytes.now ≤ place) (λ mark. (place < length bytes.now) × (mark ≡ mark_of (slice_index bytes.now place))) }
{
    if place < bytes.len() {
        return Some(mark_at(bytes[place]));
    }
    None
}

/// The integer whose `i` stands before this place.
pub(crate) fn int_at(bytes: &[u8], place: usize) -> Result<(i64, usize), Stop>
    requires { place ≤ length bytes.now }
    ensures { (opens : List Open) → Comes bytes.now place (going place opens sign) (λ next n. deliver_key next opens (K.Int n)) result }
{
    let Some(mark) = mark_in(bytes, place) else {
        return Err(Stop::Short);
    };
    match mark {
        Mark::Minus => negative_at(bytes, place + 1),
        Mark::Digit(digit) => {
            if digit == 0 {
                return zero_at(bytes, place + 1);
            }
            let (number, next) = digits_at(bytes, place + 1, digit as u64, false)?;
            Ok((number as i64, next))
        }
        _ => Err(Stop::Bad(place, Why::Letter)),
    }
}

/// The integer whose `-` stands before this place.
fn negative_at(bytes: &[u8], place: usize) -> Result<(i64, usize), Stop>
    requires { place ≤ length bytes.now }
    ensures { (opens : List Open) → Comes bytes.now place (going place opens minus) (λ next n. deliver_key next opens (K.Int n)) result }
{
    let Some(mark) = mark_in(bytes, place) else {
        return Err(Stop::Short);
    };
    match mark {
        Mark::Digit(digit) => {
            if digit == 0 {
                return Err(Stop::Bad(place, Why::MinusZero));
            }
            let (number, next) = digits_at(bytes, place + 1, digit as u64, true)?;
            Ok((negated(number), next))
        }
        _ => Err(Stop::Bad(place, Why::Letter)),
    }
}

/// The integer 0, whose `0` stands before this place.
fn zero_at(bytes: &[u8], place: usize) -> Result<(i64, usize), Stop>
    requires { place ≤ length bytes.now }
    ensures { (opens : List Open) → Comes bytes.now place (going place opens zero_int) (λ next n. deliver_key next opens (K.Int n)) result }
{
    let Some(mark) = mark_in(bytes, place) else {
        return Err(Stop::Short);
    };
    match mark {
        Mark::End => Ok((0, place + 1)),
        Mark::Digit(_) => Err(Stop::Bad(place, Why::Leading)),
        _ => Err(Stop::Bad(place, Why::Letter)),
    }
}

/// The number with `-` before it.
fn negated(number: u64) -> i64
    requires positive { 0 < number }
    requires in_range { number ≤ 2 ^ 63 }
    ensures { result ≡ int_of true number }
{
    -1 - (number - 1) as i64
}

/// The digits of a number that go on from this place, and the `e` behind them.
fn digits_at(bytes: &[u8], place: usize, first: u64, negative: bool) -> Result<(u64, usize), Stop>
    requires within { place ≤ length bytes.now }
    requires positive { 0 < first }
    requires in_range { first ≤ range_of negative }
    ensures comes { (opens : List Open) → Comes bytes.now place (going place opens (number negative first))
        (λ next n. deliver_key next opens (K.Int (int_of negative n))) result }
    ensures in_range { IfOk result (λ found. (0 < found.0) × (found.0 ≤ range_of negative)) }
{
    let limit = if negative { 1 << 63 } else { (1 << 63) - 1 };
    let mut number = first;
    for at in place..bytes.len() {
        match mark_at(bytes[at]) {
            Mark::Digit(digit) => {
                let digit = digit as u64;
                if number > (limit - digit) / 10 {
                    return Err(Stop::Bad(at, Why::Range));
                }
                number = 10 * number + digit;
            }
            Mark::End => return Ok((number, at + 1)),
            _ => return Err(Stop::Bad(at, Why::Letter)),
        }
    }
    Err(Stop::Short)
}

/// The digits of a length that go on from this place, and the `:` behind them.
pub(crate) fn length_at(bytes: &[u8], place: usize, first: usize) -> Result<(usize, usize), Stop>
    requires within { place ≤ length bytes.now }
    requires positive { 0 < first }
    requires in_limit { first ≤ 67108864 }
    ensures comes { (opens : List Open) → Comes bytes.now place (going place opens (size first)) (λ next k. going next opens (string k [])) result }
    ensures in_limit { IfOk result (λ found. (0 < found.0) × (found.0 ≤ 67108864)) }
{
    let mut size = first;
    for at in place..bytes.len() {
        match mark_at(bytes[at]) {
            Mark::Digit(digit) => {
                size = 10 * size + digit as usize;
                if size > LONGEST {
                    return Err(Stop::Bad(at, Why::Length));
                }
            }
            Mark::Colon => return Ok((size, at + 1)),
            _ => return Err(Stop::Bad(at, Why::Letter)),
        }
    }
    Err(Stop::Short)
}
