// The server's hello.
ghost use Rattle.std.specs.Prelude.{◌≡◌, IfOk, None};
ghost use Rattle.bencode_values.specs.declared.value.Value.TheVariants as V;
ghost use Rattle.hello_caps.specs.Replies.{codings, entry, server_pairs, server_hello_value};
ghost use Rattle.packet_frames.specs.Written.{MayBeWritten};

use crate::caps::Caps;
use bencode_values::{Items, Key, Pair, Pairs, Value};
use std::alloc::Global;
use xp_base::{Bytes, NoMemory};

/// The server's hello to a client with these capabilities: it names the lossy coding where the client allows it.
pub fn server_hello(alloc: Global, caps: &Caps) -> Result<Value, NoMemory>
    ensures value { IfOk result (λ value. value ≡ server_hello_value caps.now.lossy) }
    // So it is what a packet may be written of.
    ensures fits { IfOk result (λ value. MayBeWritten value None) }
{
    let mut items = Items::new(alloc);
    items.push(text(alloc, b"hello")?)?;
    items.push(Value::Dict(capabilities(alloc, caps.lossy)?))?;
    Ok(Value::List(items))
}

/// What the server is capable of, by key.
fn capabilities(alloc: Global, lossy: bool) -> Result<Pairs, NoMemory>
    ensures { IfOk result (λ pairs. pairs ≡ server_pairs lossy) }
{
    let mut pairs = Pairs::new(alloc);
    pairs.push(pair(alloc, b"bencode", Value::Int(1))?)?;
    pairs.push(pair(alloc, b"encodings", encodings(alloc, lossy)?)?)?;
    pairs.push(pair(alloc, b"lz4", Value::Int(0))?)?;
    pairs.push(pair(alloc, b"rencode", Value::Int(0))?)?;
    pairs.push(pair(alloc, b"version", text(alloc, b"1")?)?)?;
    Ok(pairs)
}

/// The codings that the server may send.
fn encodings(alloc: Global, lossy: bool) -> Result<Value, NoMemory>
    ensures { IfOk result (λ value. value ≡ V.List (codings lossy)) }
{
    let mut items = Items::new(alloc);
    items.push(text(alloc, b"rgb32")?)?;
    if lossy {
        items.push(text(alloc, b"rgb16")?)?;
    }
    Ok(Value::List(items))
}

/// A key of bytes with its value.
fn pair(alloc: Global, key: &[u8], value: Value) -> Result<Pair, NoMemory>
    ensures { IfOk result (λ pair. pair ≡ entry key.now value) }
{
    let key = Key::Bytes(Bytes::new(Vec::from_slice(alloc, key)?));
    Ok(Pair { key, value })
}

/// A byte string.
fn text(alloc: Global, bytes: &[u8]) -> Result<Value, NoMemory>
    ensures { IfOk result (λ value. value ≡ V.Bytes bytes.now) }
{
    Ok(Value::Bytes(Bytes::new(Vec::from_slice(alloc, bytes)?)))
}
