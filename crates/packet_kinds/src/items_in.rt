// Items that were read.
ghost use Rattle.std.specs.Prelude.{◌≡◌, IfOk, drop, slice_get};
ghost use Rattle.std.specs.Option.{option_copied};
ghost use Rattle.packet_kinds.specs.Items.{items_of, int_of, bytes_of, int_at, bytes_at, natural_at, wid_at, place_at, side_at, stride_at, point_at, side_from, coding_of, coding_at};

use crate::copies::{copy_items, copy_value};
use bencode_values::{Items, Value};
use std::alloc::Global;
use xp_base::{Bytes, Coding, NoMemory, Wid};

/// The items of a list, where the value is one.
#[tactic(auto, using(crate::proofs::Items::item_forms))]
pub(crate) fn items_of(value: &Value) -> Option<&Items>
    ensures { option_copied result ≡ items_of value.now }
{
    match value {
        Value::Int(_number) => None,
        Value::Bytes(_text) => None,
        Value::List(items) => Some(items),
        Value::Dict(_pairs) => None,
    }
}

/// The integer, where the value is one.
#[tactic(auto, using(crate::proofs::Items::item_forms))]
fn int_of(value: &Value) -> Option<i64>
    ensures { result ≡ int_of value.now }
{
    match value {
        Value::Int(number) => Some(*number),
        Value::Bytes(_text) => None,
        Value::List(_items) => None,
        Value::Dict(_pairs) => None,
    }
}

/// The byte string, where the value is one.
#[tactic(auto, using(crate::proofs::Items::item_forms))]
fn bytes_of(value: &Value) -> Option<&Bytes>
    ensures { option_copied result ≡ bytes_of value.now }
{
    match value {
        Value::Int(_number) => None,
        Value::Bytes(text) => Some(text),
        Value::List(_items) => None,
        Value::Dict(_pairs) => None,
    }
}

/// The byte string, where the value is one, moved out of it.
#[tactic(auto, using(crate::proofs::Items::item_forms))]
pub(crate) fn into_bytes(value: Value) -> Option<Bytes>
    ensures { result ≡ bytes_of value }
{
    match value {
        Value::Int(_number) => None,
        Value::Bytes(text) => Some(text),
        Value::List(_items) => None,
        Value::Dict(_pairs) => None,
    }
}

/// The integer at a place of a list, where there is one.
pub(crate) fn int_at(items: &[Value], i: usize) -> Option<i64>
    ensures { result ≡ int_at items.now i }
{
    int_of(items.get(i)?)
}

/// The byte string there.
pub(crate) fn bytes_at(items: &[Value], i: usize) -> Option<&Bytes>
    ensures { option_copied result ≡ bytes_at items.now i }
{
    bytes_of(items.get(i)?)
}

/// The number from the least to the most there.
fn natural_at(items: &[Value], i: usize, least: u32, most: u32) -> Option<u32>
    ensures { result ≡ natural_at least most items.now i }
{
    let n = int_at(items, i)?;
    if n < i64::from(least) || n > i64::from(most) {
        return None;
    }
    Some(n as u32)
}

/// The window's number there.
pub(crate) fn wid_at(items: &[Value], i: usize) -> Option<Wid>
    ensures { result ≡ wid_at items.now i }
{
    Wid::new(int_at(items, i)?)
}

/// The place of a window on the desktop there.
pub(crate) fn place_at(items: &[Value], i: usize) -> Option<i32>
    ensures { result ≡ place_at items.now i }
{
    let n = int_at(items, i)?;
    if n < -32_768 || n > 32_767 {
        return None;
    }
    Some(n as i32)
}

/// The side of a window there.
pub(crate) fn side_at(items: &[Value], i: usize) -> Option<u32>
    ensures { result ≡ side_at items.now i }
{
    natural_at(items, i, 1, 4_096)
}

/// There, how many bytes one row of a draw is after the row above.
pub(crate) fn stride_at(items: &[Value], i: usize) -> Option<u32>
    ensures { result ≡ stride_at items.now i }
{
    natural_at(items, i, 1, 67_108_864)
}

/// The place of a draw in its window there.
pub(crate) fn point_at(items: &[Value], i: usize) -> Option<u32>
    ensures { result ≡ point_at items.now i }
{
    natural_at(items, i, 0, 4_095)
}

/// The side of a draw there, which begins at this place of the window.
pub(crate) fn side_from(start: u32, items: &[Value], i: usize) -> Option<u32>
    ensures { result ≡ side_from start items.now i }
{
    let side = side_at(items, i)?;
    if start > 4_096 - side {
        return None;
    }
    Some(side)
}

/// The coding there.
pub(crate) fn coding_at(items: &[Value], i: usize) -> Option<Coding>
    ensures { result ≡ coding_at items.now i }
{
    coding_of(bytes_at(items, i)?.as_slice())
}

/// The coding of a name.
fn coding_of(name: &[u8]) -> Option<Coding>
    ensures { result ≡ coding_of name.now }
{
    if name == b"rgb32".as_slice() {
        return Some(Coding::Exact);
    }
    if name == b"rgb16".as_slice() {
        return Some(Coding::Lossy);
    }
    None
}

/// A copy of the item there, where there is one.
pub(crate) fn copy_at(alloc: Global, items: &[Value], i: usize) -> Result<Option<Value>, NoMemory>
    ensures { IfOk result (λ copy. copy ≡ slice_get items.now i) }
{
    match items.get(i) {
        Some(item) => Ok(Some(copy_value(alloc, item)?)),
        None => Ok(None),
    }
}

/// A copy of the items from there on.
pub(crate) fn copy_behind(alloc: Global, items: &[Value], i: usize) -> Result<Items, NoMemory>
    ensures { IfOk result (λ copy. copy ≡ drop i items.now) }
{
    if i >= items.len() {
        return Ok(Items::new(alloc));
    }
    copy_items(alloc, &items[i..])
}
