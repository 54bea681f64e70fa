// Main packets.
ghost use Rattle.std.specs.Prelude.{◌≡◌, ℕ, ◌+◌, ◌-◌, ◌≤◌, length, map, All, IfOk, slice_range};
ghost use Rattle.packet_frames.specs.Framing.{main_judged, put_all, read_of};
ghost use Rattle.packet_frames.specs.Begins.{Says, chunk_in, LiesIn};

use crate::ahead::Ahead;
use crate::begun::Begun;
use crate::fault::FrameFault;
use crate::item::put_in;
use bencode_values::{Read, Value, read_value};
use std::alloc::Global;
use xp_base::NoMemory;

/// The main packet behind these chunks whose header stands at this place, and whose content ends at the end.
pub(crate) fn main_in(
    alloc: Global,
    bytes: &[u8],
    chunks: &[Ahead],
    at: usize,
    end: usize,
) -> Result<Begun, NoMemory>
    requires begins { at + 8 ≤ end }
    requires ends { end ≤ length bytes.now }
    requires chunks { All (LiesIn bytes.now) chunks.now }
    ensures { IfOk result (Says (main_judged at (end - (at + 8)) (map (chunk_in bytes.now) chunks.now) (read_of (slice_range bytes.now (at + 8) end)))) }
{
    match read_value(alloc, &bytes[at + 8..end]) {
        Read::Whole(value, used) => {
            if at + 8 + used < end {
                return Ok(Begun::Wrong(at + 8 + used, FrameFault::Extra));
            }
            put_all(alloc, bytes, chunks, value, at, end)
        }
        Read::Short => Ok(Begun::Wrong(end, FrameFault::Cut)),
        Read::Bad(place, why) => Ok(Begun::Wrong(at + 8 + place, FrameFault::Payload(why))),
        Read::NoMemory => Err(NoMemory),
    }
}

/// The value of the main packet at this place with the bytes of the chunks put in, in the order of their arrival.
fn put_all(
    alloc: Global,
    bytes: &[u8],
    chunks: &[Ahead],
    value: Value,
    at: usize,
    end: usize,
) -> Result<Begun, NoMemory>
    requires { All (LiesIn bytes.now) chunks.now }
    ensures { IfOk result (Says (put_all at end (map (chunk_in bytes.now) chunks.now) value)) }
{
    let mut filled = value;
    for chunk in chunks {
        match put_in(alloc, filled, chunk.index, &bytes[chunk.at + 8..chunk.end])? {
            Some(next) => filled = next,
            None => {
                return Ok(Begun::Wrong(chunk.at + 3, FrameFault::Chunk(chunk.index)));
            }
        }
    }
    Ok(Begun::Whole(at, filled, end))
}
