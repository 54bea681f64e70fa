// Which of the four forms a value has.
ghost use Rattle.std.specs.Prelude.{◌≡◌};
ghost use Rattle.std.specs.Option.{option_copied};
ghost use Rattle.hello_caps.specs.Capabilities.{items_of, pairs_of, text_of};

use bencode_values::{Items, Pairs, Value};
use xp_base::Bytes;

/// The items, where the value is a list.
pub(crate) fn items_of(value: &Value) -> Option<&Items>
    ensures { option_copied result ≡ items_of value.now }
{
    match value {
        Value::List(items) => Some(items),
        Value::Int(_number) => None,
        Value::Bytes(_text) => None,
        Value::Dict(_pairs) => None,
    }
}

/// The pairs, where the value is a dictionary.
pub(crate) fn pairs_of(value: &Value) -> Option<&Pairs>
    ensures { option_copied result ≡ pairs_of value.now }
{
    match value {
        Value::Dict(pairs) => Some(pairs),
        Value::Int(_number) => None,
        Value::Bytes(_text) => None,
        Value::List(_items) => None,
    }
}

/// The bytes, where the value is a byte string.
pub(crate) fn text_of(value: &Value) -> Option<&Bytes>
    ensures { option_copied result ≡ text_of value.now }
{
    match value {
        Value::Bytes(text) => Some(text),
        Value::Int(_number) => None,
        Value::List(_items) => None,
        Value::Dict(_pairs) => None,
    }
}
