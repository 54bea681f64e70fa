// Byte strings.
ghost use Rattle.std.specs.Prelude.{◌≡◌, ℕ, ◌≤◌, length, List, []};
ghost use Rattle.bencode_values.specs.Reading.{Open};
ghost use Rattle.bencode_values.specs.Steps.{going, zero_length, length_token, deliver_key};
ghost use Rattle.bencode_values.specs.Coming.{Comes};
ghost use Rattle.bencode_values.specs.declared.value.Key.TheVariants as K;

use crate::mark::Mark;
use crate::number::{length_at, mark_in};
use crate::reading::Why;
use crate::stop::Stop;
use std::alloc::Global;
use xp_base::Bytes;

/// The byte string whose first digit stands before this place.
pub(crate) fn string_at(
    alloc: Global,
    bytes: &[u8],
    place: usize,
    first: u8,
) -> Result<(Bytes, usize), Stop>
    requires { place ≤ length bytes.now }
    ensures { (opens : List Open) → Comes bytes.now place (going place opens (length_token first)) (λ next text. deliver_key next opens (K.Bytes text)) result }
{
    if first == 0 {
        return empty_at(alloc, bytes, place);
    }
    let (size, next) = length_at(bytes, place, first as usize)?;
    if bytes.len() - next < size {
        return Err(Stop::Short);
    }
    let text = Vec::from_slice(alloc, &bytes[next..next + size])?;
    Ok((Bytes::new(text), next + size))
}

/// The empty byte string, whose `0` stands before this place.
fn empty_at(alloc: Global, bytes: &[u8], place: usize) -> Result<(Bytes, usize), Stop>
    requires { place ≤ length bytes.now }
    ensures { (opens : List Open) → Comes bytes.now place (going place opens zero_length) (λ next text. deliver_key next opens (K.Bytes text)) result }
{
    let Some(mark) = mark_in(bytes, place) else {
        return Err(Stop::Short);
    };
    match mark {
        Mark::Colon => Ok((Bytes::new(Vec::new(alloc)), place + 1)),
        Mark::Digit(_) => Err(Stop::Bad(place, Why::Leading)),
        _ => Err(Stop::Bad(place, Why::Letter)),
    }
}
