// Reading a client's hello.
ghost use Rattle.std.specs.Prelude.{◌≡◌, Ok, codes};
ghost use Rattle.std.specs.Option.{option_copied};
ghost use Rattle.hello_caps.specs.Answers.{IsAnswered};
ghost use Rattle.hello_caps.specs.Capabilities.{dictionary_of, hello_pairs, is_text, holds, list_under, text_under, takes_rgb, takes_lossy, caps_of, hello_of};

use crate::caps::{Caps, HelloFault, HelloRead};
use crate::forms::{items_of, pairs_of, text_of};
use bencode_values::{Items, Pairs, Value, lookup};
use std::alloc::Global;
use xp_base::Bytes;

/// The longest uuid, in bytes.
const LONGEST_UUID: usize = 64;

/// The capabilities that a client's first packet says, or why it is refused.
#[tactic(auto, unfolding(crate::specs::Capabilities::hello_of))]
pub fn read_hello(alloc: Global, value: &Value) -> HelloRead
    ensures { IsAnswered (hello_of value.now) result }
{
    match dictionary(value) {
        Some(pairs) => read_caps(alloc, pairs),
        None => HelloRead::Refused(HelloFault::NotHello),
    }
}

/// The capabilities in a hello's dictionary, or why the client is refused.
#[tactic(auto, unfolding(crate::specs::Capabilities::caps_of))]
fn read_caps(alloc: Global, pairs: &Pairs) -> HelloRead
    ensures { IsAnswered (caps_of pairs.now) result }
{
    if !takes_rgb(pairs) {
        return HelloRead::Refused(HelloFault::NoEncoding);
    }
    let lossy = takes_lossy(pairs);
    let Some(uuid) = text_under(pairs, b"uuid") else {
        return accepted(alloc, lossy, &[]);
    };
    let uuid = uuid.as_slice();
    if uuid.len() > LONGEST_UUID {
        return HelloRead::Refused(HelloFault::Uuid(uuid.len() as u64));
    }
    accepted(alloc, lossy, uuid)
}

/// These capabilities; an anonymous client's need no memory.
fn accepted(alloc: Global, lossy: bool, uuid: &[u8]) -> HelloRead
    ensures { IsAnswered (Ok (record { lossy = lossy; uuid = uuid.now })) result }
{
    if uuid.is_empty() {
        return HelloRead::Accepted(Caps {
            lossy,
            uuid: Bytes::new(Vec::new(alloc)),
        });
    }
    match Vec::from_slice(alloc, uuid) {
        Ok(bytes) => HelloRead::Accepted(Caps {
            lossy,
            uuid: Bytes::new(bytes),
        }),
        Err(_) => HelloRead::NoMemory,
    }
}

/// Whether the encodings allow the exact coding.
fn takes_rgb(pairs: &Pairs) -> bool
    ensures { result ≡ takes_rgb (list_under (codes "encodings") pairs.now) }
{
    match list_under(pairs, b"encodings") {
        Some(items) => holds(items, b"rgb32") || holds(items, b"rgb"),
        None => true,
    }
}

/// Whether the pixel formats allow the lossy coding.
fn takes_lossy(pairs: &Pairs) -> bool
    ensures { result ≡ takes_lossy (list_under (codes "encodings.rgb_formats") pairs.now) }
{
    match list_under(pairs, b"encodings.rgb_formats") {
        Some(items) => holds(items, b"BGR565"),
        None => false,
    }
}

/// The dictionary of a hello.
fn dictionary(value: &Value) -> Option<&Pairs>
    ensures { option_copied result ≡ dictionary_of value.now }
{
    hello_pairs(items_of(value)?.as_slice())
}

/// The dictionary behind the word `hello`.
fn hello_pairs(items: &[Value]) -> Option<&Pairs>
    ensures { option_copied result ≡ hello_pairs items.now }
{
    match items {
        [first, second, ..] => {
            if is_text(first, b"hello") {
                pairs_of(second)
            } else {
                None
            }
        }
        _ => None,
    }
}

/// The list under a key.
fn list_under<'a>(pairs: &'a Pairs, key: &[u8]) -> Option<&'a Items>
    ensures { option_copied result ≡ list_under key.now pairs.now }
{
    items_of(lookup(pairs, key)?)
}

/// The byte string under a key.
fn text_under<'a>(pairs: &'a Pairs, key: &[u8]) -> Option<&'a Bytes>
    ensures { option_copied result ≡ text_under key.now pairs.now }
{
    text_of(lookup(pairs, key)?)
}

/// Whether an item is this byte string.
fn holds(items: &Items, text: &[u8]) -> bool
    ensures { result ≡ holds text.now items.now }
{
    items.as_slice().iter().any(|item| is_text(item, text))
}

/// Whether the value is this byte string.
fn is_text(value: &Value, text: &[u8]) -> bool
    ensures { result ≡ is_text text.now value.now }
{
    match text_of(value) {
        Some(bytes) => bytes.as_slice() == text,
        None => false,
    }
}
