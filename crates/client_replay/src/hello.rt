// The hellos of clients in memory.
ghost use Rattle.std.specs.Prelude.{◌≡◌, ◌<◌, ◌≤◌, ◌^◌, ◌++◌, [], length, OnOk, IfOk, false};
ghost use Rattle.bencode_values.specs.Grammar.{spelled_bytes};
ghost use Rattle.bencode_values.specs.declared.value.Value.TheVariants as V;
ghost use Rattle.packet_frames.specs.Written.{frame_bytes};
ghost use Rattle.client_replay.specs.Hellos.{hello_bytes, hello_content, uuid_key, formats_key, first_words};

use bencode_values::{Value, write_value};
use link_bay::{EXACT_HELLO, Kind};
use std::alloc::Global;
use xp_base::{Bytes, NoMemory};

/// The most bytes of a uuid that a peer in memory says.
const MOST: usize = 1_000_000;

/// What an exact client without a uuid says first: 39 bytes.
#[tactic(auto, unfolding(crate::specs::Hellos::hello_bytes))]
pub fn exact_hello() -> &'static [u8]
    ensures { result.now ≡ hello_bytes false [] }
{
    EXACT_HELLO
}

/// What a peer of this kind says first: a scripted one these bytes, any other its hello with this uuid. Want of memory
/// is also answered where the uuid has more than a million bytes.
pub(crate) fn first_words(alloc: Global, kind: Kind, name: &[u8]) -> Result<Vec<u8>, NoMemory>
    ensures { IfOk result (λ said. said.items ≡ first_words kind name.now) }
{
    match kind {
        Kind::Exact | Kind::Dry(_) => hello(alloc, false, name),
        Kind::Lossy => hello(alloc, true, name),
        Kind::Hex => Ok(name.to_vec(alloc)?),
    }
}

/// A hello, with its packet header.
fn hello(alloc: Global, lossy: bool, uuid: &[u8]) -> Result<Vec<u8>, NoMemory>
    ensures { IfOk result (λ said. said.items ≡ hello_bytes lossy uuid.now) }
{
    let mut content = Vec::new(alloc);
    content.extend_from_slice(b"l5:hellod9:encodingsl5:rgb32e")?;
    push_formats(&mut content, lossy)?;
    push_uuid(alloc, &mut content, uuid)?;
    content.extend_from_slice(b"ee")?;
    framed(alloc, content.as_slice())
}

/// Adds the key of lossy draws.
fn push_formats(content: &mut Vec<u8>, lossy: bool) -> Result<(), NoMemory>
    ensures { OnOk result (content.new.items ≡ content.old.items ++ formats_key lossy) }
{
    if lossy {
        content.extend_from_slice(b"21:encodings.rgb_formatsl4:BGRX6:BGR565e")?;
    }
    Ok(())
}

/// Adds a uuid that is not empty, as the last key.
fn push_uuid(alloc: Global, content: &mut Vec<u8>, uuid: &[u8]) -> Result<(), NoMemory>
    ensures { OnOk result (content.new.items ≡ content.old.items ++ uuid_key uuid.now) }
{
    if uuid.is_empty() {
        return Ok(());
    }
    if uuid.len() > MOST {
        return Err(NoMemory);
    }
    let text = spelled_text(alloc, uuid)?;
    content.extend_from_slice(b"4:uuid")?;
    content.extend_from_slice(text.as_slice())?;
    Ok(())
}

/// The spelling of a byte string.
fn spelled_text(alloc: Global, text: &[u8]) -> Result<Vec<u8>, NoMemory>
    requires { length text.now ≤ 1000000 }
    ensures { IfOk result (λ bytes. bytes.items ≡ spelled_bytes text.now) }
{
    let value = text_value(alloc, text)?;
    write_value(alloc, &value)
}

/// A byte string as a value.
fn text_value(alloc: Global, text: &[u8]) -> Result<Value, NoMemory>
    ensures { IfOk result (λ value. value ≡ V.Bytes text.now) }
{
    let items = Vec::from_slice(alloc, text)?;
    Ok(Value::Bytes(Bytes::new(items)))
}

/// A main packet with this content.
fn framed(alloc: Global, content: &[u8]) -> Result<Vec<u8>, NoMemory>
    ensures { IfOk result (λ said. said.items ≡ frame_bytes 0 content.now) }
{
    let size = content.len();
    if size >= 0x1_0000_0000 {
        return Err(NoMemory);
    }
    let header = [
        0x50,
        0,
        0,
        0,
        (size / 0x1_000_000) as u8,
        (size / 0x10_000 % 0x100) as u8,
        (size / 0x100 % 0x100) as u8,
        (size % 0x100) as u8,
    ];
    let mut bytes = Vec::new(alloc);
    bytes.extend_from_slice(&header)?;
    bytes.extend_from_slice(content)?;
    Ok(bytes)
}
