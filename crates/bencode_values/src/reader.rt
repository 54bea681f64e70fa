// Values, one inside another.
ghost use Rattle.std.specs.Prelude.{◌≡◌, ◌≢◌, ℕ, ◌+◌, ◌≤◌, ◌<◌, length, List, [], ◌∷◌, slice_index, IfOk};
ghost use Rattle.bencode_values.specs.Marks.{mark_of};
ghost use Rattle.bencode_values.specs.Reading.{Open, in_list, in_dict, in_entry};
ghost use Rattle.bencode_values.specs.Steps.{going, start, deliver, AwaitsValue};
ghost use Rattle.bencode_values.specs.Coming.{Comes};
ghost use Rattle.bencode_values.specs.declared.mark.Mark.TheVariants as M;
ghost use Rattle.bencode_values.specs.declared.value.Value.TheVariants as V;
ghost use Rattle.bencode_values.specs.declared.value.Pair.{Pair};

use crate::mark::Mark;
use crate::number::{int_at, mark_in};
use crate::reading::Why;
use crate::stop::Stop;
use crate::string::string_at;
use crate::value::{Items, Key, Pair, Pairs, Value};
use std::alloc::Global;

/// How many lists and dictionaries may be open at once.
const DEEPEST: usize = 32;

/// The value that begins at this place, where so many lists and dictionaries are open.
#[cycle(read)]
pub(crate) fn value_at(
    alloc: Global,
    bytes: &[u8],
    place: usize,
    depth: usize,
) -> Result<(Value, usize), Stop>
    requires within { place ≤ length bytes.now }
    requires deep { depth ≤ 32 }
    ensures comes { (opens : List Open) → length opens ≡ depth → AwaitsValue opens (mark_of (slice_index bytes.now place)) →
        Comes bytes.now place (going place opens start) (λ next v. deliver next opens v) result }
    ensures moves { IfOk result (λ found. (place < found.1) × (found.1 ≤ length bytes.now)) }
{
    let Some(mark) = mark_in(bytes, place) else {
        return Err(Stop::Short);
    };
    match mark {
        Mark::Int => {
            let (number, next) = int_at(bytes, place + 1)?;
            Ok((Value::Int(number), next))
        }
        Mark::Digit(first) => {
            let (text, next) = string_at(alloc, bytes, place + 1, first)?;
            Ok((Value::Bytes(text), next))
        }
        Mark::List => {
            if depth == DEEPEST {
                return Err(Stop::Bad(place, Why::Depth));
            }
            let (items, next) = items_at(alloc, bytes, place + 1, depth + 1)?;
            Ok((Value::List(items), next))
        }
        Mark::Dict => {
            if depth == DEEPEST {
                return Err(Stop::Bad(place, Why::Depth));
            }
            let (pairs, next) = pairs_at(alloc, bytes, place + 1, depth + 1)?;
            Ok((Value::Dict(pairs), next))
        }
        _ => Err(Stop::Bad(place, Why::Letter)),
    }
}

/// The values of the list whose `l` stands before this place, up to its `e`.
#[cycle(read)]
fn items_at(alloc: Global, bytes: &[u8], place: usize, depth: usize) -> Result<(Items, usize), Stop>
    requires within { place ≤ length bytes.now }
    requires deep { depth ≤ 32 }
    ensures comes { (outer : List Open) → length outer + 1 ≡ depth →
        Comes bytes.now place (going place (in_list [] ∷ outer) start) (λ next vs. deliver next outer (V.List vs)) result }
    ensures moves { IfOk result (λ found. (place < found.1) × (found.1 ≤ length bytes.now)) }
{
    let mut items = Items::new(alloc);
    let mut at = place;
    while let Some(mark) = mark_in(bytes, at) {
        if let Mark::End = mark {
            return Ok((items, at + 1));
        }
        let (value, next) = value_at(alloc, bytes, at, depth)?;
        items.push(value)?;
        at = next;
    }
    Err(Stop::Short)
}

/// The pairs of the dictionary whose `d` stands before this place, up to its `e`.
#[cycle(read)]
fn pairs_at(alloc: Global, bytes: &[u8], place: usize, depth: usize) -> Result<(Pairs, usize), Stop>
    requires within { place ≤ length bytes.now }
    requires deep { depth ≤ 32 }
    ensures comes { (outer : List Open) → length outer + 1 ≡ depth →
        Comes bytes.now place (going place (in_dict [] ∷ outer) start) (λ next ps. deliver next outer (V.Dict ps)) result }
    ensures moves { IfOk result (λ found. (place < found.1) × (found.1 ≤ length bytes.now)) }
{
    let mut pairs = Pairs::new(alloc);
    let mut at = place;
    while let Some(mark) = mark_in(bytes, at) {
        if let Mark::End = mark {
            return Ok((pairs, at + 1));
        }
        let (key, after) = key_at(alloc, bytes, at, mark)?;
        let (value, next) = value_at(alloc, bytes, after, depth)?;
        pairs.push(Pair { key, value })?;
        at = next;
    }
    Err(Stop::Short)
}

/// The key that begins with this mark, at this place.
fn key_at(alloc: Global, bytes: &[u8], place: usize, mark: Mark) -> Result<(Key, usize), Stop>
    requires within { place < length bytes.now }
    requires marked { mark ≡ mark_of (slice_index bytes.now place) }
    requires goes_on { mark ≢ M.End }
    ensures { (ps : List Pair) (outer : List Open) →
        Comes bytes.now place (going place (in_dict ps ∷ outer) start) (λ next k. going next (in_entry ps k ∷ outer) start) result }
{
    match mark {
        Mark::Int => {
            let (number, next) = int_at(bytes, place + 1)?;
            Ok((Key::Int(number), next))
        }
        Mark::Digit(first) => {
            let (text, next) = string_at(alloc, bytes, place + 1, first)?;
            Ok((Key::Bytes(text), next))
        }
        Mark::List | Mark::Dict => Err(Stop::Bad(place, Why::Key)),
        _ => Err(Stop::Bad(place, Why::Letter)),
    }
}
