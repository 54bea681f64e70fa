// Items to write.
ghost use Rattle.std.specs.Prelude.{◌≡◌, IfOk, ◌∷◌, []};
ghost use Rattle.packet_kinds.specs.Items.{number, text, optional, options, coding_name, format_name};

use crate::copies::copy_value;
use bencode_values::{Items, Key, Pair, Pairs, Value};
use std::alloc::Global;
use xp_base::{Bytes, Coding, NoMemory};

/// A byte string.
pub(crate) fn text(alloc: Global, bytes: &[u8]) -> Result<Value, NoMemory>
    ensures { IfOk result (λ item. item ≡ text bytes.now) }
{
    let items = Vec::from_slice(alloc, bytes)?;
    Ok(Value::Bytes(Bytes::new(items)))
}

/// A number.
pub(crate) fn number(n: u32) -> Value
    ensures { result ≡ number n }
{
    Value::Int(i64::from(n))
}

/// A packet with its name alone.
pub(crate) fn named(alloc: Global, name: &[u8]) -> Result<Items, NoMemory>
    ensures { IfOk result (λ items. items ≡ text name.now ∷ []) }
{
    let mut items = Items::new(alloc);
    items.push(text(alloc, name)?)?;
    Ok(items)
}

/// A packet with its name and an item that may be missing.
pub(crate) fn named_optional(
    alloc: Global,
    name: &[u8],
    item: &Option<Value>,
) -> Result<Items, NoMemory>
    ensures { IfOk result (λ items. items ≡ text name.now ∷ optional item.now) }
{
    let mut items = named(alloc, name)?;
    if let Some(value) = item {
        items.push(copy_value(alloc, value)?)?;
    }
    Ok(items)
}

/// The name of a coding.
pub(crate) fn coding_name(coding: Coding) -> &'static [u8]
    ensures { result.now ≡ coding_name coding }
{
    match coding {
        Coding::Exact => b"rgb32",
        Coding::Lossy => b"rgb16",
    }
}

/// The order of the bytes of a pixel.
fn format_name(coding: Coding) -> &'static [u8]
    ensures { result.now ≡ format_name coding }
{
    match coding {
        Coding::Exact => b"BGRX",
        Coding::Lossy => b"BGR565",
    }
}

/// The options of a draw.
pub(crate) fn options(alloc: Global, coding: Coding) -> Result<Value, NoMemory>
    ensures { IfOk result (λ item. item ≡ options coding) }
{
    let key = Key::Bytes(Bytes::new(Vec::from_slice(alloc, b"rgb_format")?));
    let value = text(alloc, format_name(coding))?;
    let mut pairs = Pairs::new(alloc);
    pairs.push(Pair { key, value })?;
    Ok(Value::Dict(pairs))
}
