// Copies of values.
ghost use Rattle.std.specs.Prelude.{◌≡◌, IfOk};

use bencode_values::{Items, Key, Pair, Pairs, Value};
use std::alloc::Global;
use xp_base::{Bytes, NoMemory};

/// The same value again.
#[cycle(copies)]
pub(crate) fn copy_value(alloc: Global, value: &Value) -> Result<Value, NoMemory>
    ensures { IfOk result (λ copy. copy ≡ value.now) }
{
    match value {
        Value::Int(number) => Ok(Value::Int(*number)),
        Value::Bytes(text) => Ok(Value::Bytes(copy_bytes(alloc, text)?)),
        Value::List(items) => Ok(Value::List(copy_items(alloc, items.as_slice())?)),
        Value::Dict(pairs) => Ok(Value::Dict(copy_pairs(alloc, pairs.as_slice())?)),
    }
}

/// The same values again, as the items of a list.
#[cycle(copies)]
pub(crate) fn copy_items(alloc: Global, values: &[Value]) -> Result<Items, NoMemory>
    ensures { IfOk result (λ copy. copy ≡ values.now) }
{
    let mut copy = Items::new(alloc);
    for value in values {
        copy.push(copy_value(alloc, value)?)?;
    }
    Ok(copy)
}

#[cycle(copies)]
fn copy_pairs(alloc: Global, pairs: &[Pair]) -> Result<Pairs, NoMemory>
    ensures { IfOk result (λ copy. copy ≡ pairs.now) }
{
    let mut copy = Pairs::new(alloc);
    for pair in pairs {
        let key = copy_key(alloc, &pair.key)?;
        let value = copy_value(alloc, &pair.value)?;
        copy.push(Pair { key, value })?;
    }
    Ok(copy)
}

fn copy_key(alloc: Global, key: &Key) -> Result<Key, NoMemory>
    ensures { IfOk result (λ copy. copy ≡ key.now) }
{
    match key {
        Key::Int(number) => Ok(Key::Int(*number)),
        Key::Bytes(text) => Ok(Key::Bytes(copy_bytes(alloc, text)?)),
    }
}

/// The same bytes again.
pub(crate) fn copy_bytes(alloc: Global, bytes: &Bytes) -> Result<Bytes, NoMemory>
    ensures { IfOk result (λ copy. copy ≡ bytes.now) }
{
    let items = Vec::from_slice(alloc, bytes.as_slice())?;
    Ok(Bytes::new(items))
}

/// The same value again, where there is one.
pub(crate) fn copy_optional(alloc: Global, value: &Option<Value>) -> Result<Option<Value>, NoMemory>
    ensures { IfOk result (λ copy. copy ≡ value.now) }
{
    match value {
        Some(value) => Ok(Some(copy_value(alloc, value)?)),
        None => Ok(None),
    }
}
