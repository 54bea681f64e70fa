// Writing packets.
ghost use Rattle.std.specs.Prelude.{◌≡◌, ◌<◌, ◌++◌, ◌^◌, length, OnOk, IfOk};
ghost use Rattle.std.specs.Option.{ForSome};
ghost use Rattle.packet_frames.specs.Written.{chunk_bytes, frame_bytes, packet_bytes, MayBeWritten, IsThatPacket};

use crate::chunk::Chunk;
use bencode_values::{Value, write_value};
use std::alloc::Global;
use xp_base::NoMemory;

/// The bytes of a packet with this main value, and of a chunk ahead of it whose bytes stand for one item of it.
pub fn write_packet(alloc: Global, value: &Value, chunk: Option<Chunk>) -> Result<Vec<u8>, NoMemory>
    requires { MayBeWritten value.now chunk }
    ensures bytes { IfOk result (λ bytes. bytes.items ≡ packet_bytes value.now chunk) }
    // Their packets, for each limit that neither size exceeds, are that one value with the chunk's bytes put in.
    ensures packets { IfOk result (λ bytes. IsThatPacket value.now chunk bytes.items) }
{
    let content = write_value(alloc, value)?;
    let mut bytes = Vec::with_capacity(alloc, 16 + content.len() + chunk_size(&chunk))?;
    push_chunk(&mut bytes, chunk)?;
    push_frame(&mut bytes, 0, content.as_slice())?;
    Ok(bytes)
}

/// How many bytes a chunk's content has, if there is one.
fn chunk_size(chunk: &Option<Chunk>) -> usize
    ensures { result < 2 ^ 32 }
{
    match chunk {
        Some(chunk) => chunk.bytes.len().min(0xffff_ffff),
        None => 0,
    }
}

/// Adds a chunk, if there is one.
fn push_chunk(bytes: &mut Vec<u8>, chunk: Option<Chunk>) -> Result<(), NoMemory>
    requires { ForSome chunk (λ chunk. length chunk.bytes < 2 ^ 32) }
    ensures { OnOk result (bytes.new.items ≡ bytes.old.items ++ chunk_bytes chunk) }
{
    match chunk {
        Some(chunk) => push_frame(bytes, chunk.index, chunk.bytes.as_slice()),
        None => Ok(()),
    }
}

/// Adds a header and its content.
fn push_frame(bytes: &mut Vec<u8>, index: u8, content: &[u8]) -> Result<(), NoMemory>
    requires { length content.now < 2 ^ 32 }
    ensures { OnOk result (bytes.new.items ≡ bytes.old.items ++ frame_bytes index content.now) }
{
    let size = content.len();
    let header = [
        0x50,
        0,
        0,
        index,
        (size / 0x1_000_000) as u8,
        (size / 0x10_000 % 0x100) as u8,
        (size / 0x100 % 0x100) as u8,
        (size % 0x100) as u8,
    ];
    bytes.extend_from_slice(&header)?;
    bytes.extend_from_slice(content)?;
    Ok(())
}
