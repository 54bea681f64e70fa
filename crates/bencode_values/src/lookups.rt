// Looking a key up.
ghost use Rattle.std.specs.Prelude.{◌≡◌};
ghost use Rattle.std.specs.Option.{option_copied};
ghost use Rattle.bencode_values.specs.Lookup.{last_value, is_text};

use crate::value::{Key, Pairs, Value};

/// The value of the last pair whose key is this string of bytes.
pub fn lookup<'a>(pairs: &'a Pairs, key: &[u8]) -> Option<&'a Value>
    ensures { option_copied result ≡ last_value key.now pairs.now }
{
    let list = pairs.as_slice();
    for at in (0..list.len()).rev() {
        let pair = &list[at];
        if is_key(&pair.key, key) {
            return Some(&pair.value);
        }
    }
    None
}

/// Whether a key is this string of bytes.
fn is_key(key: &Key, text: &[u8]) -> bool
    ensures { result ≡ is_text text.now key.now }
{
    match key {
        Key::Int(_) => false,
        Key::Bytes(bytes) => bytes.as_slice() == text,
    }
}
