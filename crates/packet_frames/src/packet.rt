// One packet.
ghost use Rattle.std.specs.Prelude.{◌≡◌, ℕ, IfOk};
ghost use Rattle.packet_frames.specs.Begins.{BeginsAs};

use crate::ahead::Ahead;
use crate::begun::Begun;
use crate::head::{Head, head_in};
use crate::main_packet::main_in;
use std::alloc::Global;
use xp_base::NoMemory;

/// What the bytes behind a packet begin with.
pub(crate) fn packet_in(alloc: Global, limit: u32, bytes: &[u8]) -> Result<Begun, NoMemory>
    ensures { IfOk result (BeginsAs limit bytes.now) }
{
    let mut chunks: Vec<Ahead> = Vec::new(alloc);
    let mut at = 0;
    loop {
        match head_in(limit, chunks.as_slice(), &bytes[at..]) {
            Head::Part => return Ok(Begun::Part(1)),
            Head::Wrong(place, fault) => return Ok(Begun::Wrong(at + place, fault)),
            Head::Whole(index, size) => {
                let there = bytes.len() - at - 8;
                if there < size {
                    return Ok(Begun::Part(size - there));
                }
                let end = at + 8 + size;
                if index == 0 {
                    return main_in(alloc, bytes, chunks.as_slice(), at, end);
                }
                chunks.push(Ahead { index, at, end })?;
                at = end;
            }
        }
    }
}
