// Items that a chunk stands for.
ghost use Rattle.std.specs.Prelude.{◌≡◌, IfOk, slice_get};
ghost use Rattle.packet_frames.specs.Framing.{is_empty_string, put_in};
ghost use Rattle.bencode_values.specs.declared.value.Value.TheVariants as V;

use bencode_values::{Items, Value};
use std::alloc::Global;
use xp_base::{Bytes, NoMemory};

/// The value with these bytes in the place of the item at the index; none where it is no list with an empty
/// byte string there.
pub(crate) fn put_in(
    alloc: Global,
    value: Value,
    index: u8,
    bytes: &[u8],
) -> Result<Option<Value>, NoMemory>
    ensures { IfOk result (λ filled. filled ≡ put_in value index bytes.now) }
{
    match value {
        Value::List(items) => put_in_list(alloc, items, index as usize, bytes),
        Value::Int(_number) => Ok(None),
        Value::Bytes(_text) => Ok(None),
        Value::Dict(_pairs) => Ok(None),
    }
}

/// The same of a list with these items.
fn put_in_list(
    alloc: Global,
    mut items: Items,
    index: usize,
    bytes: &[u8],
) -> Result<Option<Value>, NoMemory>
    ensures { IfOk result (λ filled. filled ≡ put_in (V.List items) index bytes.now) }
{
    if !is_empty_string(&items, index) {
        return Ok(None);
    }
    let text = Vec::from_slice(alloc, bytes)?;
    items.set(index, Value::Bytes(Bytes::new(text)));
    Ok(Some(Value::List(items)))
}

/// Whether there is an item at the index, and it is an empty byte string.
fn is_empty_string(items: &Items, index: usize) -> bool
    ensures { result ≡ is_empty_string (slice_get items.now index) }
{
    match items.get(index) {
        Some(Value::Bytes(text)) => text.as_slice().is_empty(),
        _ => false,
    }
}
