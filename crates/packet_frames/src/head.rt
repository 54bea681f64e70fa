// Headers.
ghost use Rattle.std.specs.Prelude.{◌≡◌, ℕ, ◌<◌, length, map, slice_index};
ghost use Rattle.packet_frames.specs.Header.{head_at, is_given, may_come, size_at, IsThere};

use crate::ahead::Ahead;
use crate::fault::FrameFault;

/// The most chunks ahead of one packet.
const MOST_CHUNKS: usize = 4;

/// What the first bytes of a chunk or a main packet say.
#[derive(Clone, Copy, Debug, PartialEq, Eq)]
pub(crate) enum Head {
    /// A part of a header, with no fault.
    Part,
    /// The fault, and its place in the header.
    Wrong(usize, FrameFault),
    /// A whole header: its index and its size.
    Whole(u8, usize),
}

/// The header that begins with these bytes, behind these chunks.
pub(crate) fn head_in(limit: u32, chunks: &[Ahead], bytes: &[u8]) -> Head
    ensures says { result ≡ head_at limit (map (λ chunk. chunk.index) chunks.now) bytes.now }
    ensures there { IsThere bytes.now result }
{
    if bytes.len() <= 0 {
        return Head::Part;
    }
    if bytes[0] != 0x50 {
        return Head::Wrong(0, FrameFault::Magic);
    }
    if bytes.len() <= 1 {
        return Head::Part;
    }
    if bytes[1] != 0x00 && bytes[1] != 0x08 {
        return Head::Wrong(1, FrameFault::Flags(bytes[1]));
    }
    if bytes.len() <= 2 {
        return Head::Part;
    }
    if bytes[2] != 0 {
        return Head::Wrong(2, FrameFault::Level(bytes[2]));
    }
    if bytes.len() <= 3 {
        return Head::Part;
    }
    if !may_come(bytes[3], chunks) {
        return Head::Wrong(3, FrameFault::Chunk(bytes[3]));
    }
    size_in(limit, bytes)
}

/// The size in bytes 4 to 7 of a header whose index stands before them.
fn size_in(limit: u32, bytes: &[u8]) -> Head
    requires { 3 < length bytes.now }
    ensures says { result ≡ size_at limit (slice_index bytes.now 3) bytes.now }
    ensures there { IsThere bytes.now result }
{
    if bytes.len() <= 7 {
        return Head::Part;
    }
    let size = u32::from(bytes[4]) * 0x1_000_000
        + u32::from(bytes[5]) * 0x10_000
        + u32::from(bytes[6]) * 0x100
        + u32::from(bytes[7]);
    if size > limit {
        return Head::Wrong(4, FrameFault::Size(size));
    }
    Head::Whole(bytes[3], size as usize)
}

/// Whether an index may come after these chunks.
fn may_come(index: u8, chunks: &[Ahead]) -> bool
    ensures { result ≡ may_come index (map (λ chunk. chunk.index) chunks.now) }
{
    if is_given(index, chunks) {
        return false;
    }
    index == 0 || chunks.len() < MOST_CHUNKS
}

/// Whether one of these chunks has the index.
fn is_given(index: u8, chunks: &[Ahead]) -> bool
    ensures { result ≡ is_given index (map (λ chunk. chunk.index) chunks.now) }
{
    chunks.iter().map(|chunk| chunk.index).any(|i| i == index)
}
