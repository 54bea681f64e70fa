// What an exact peer in memory says.
ghost use Rattle.std.specs.Prelude.{◌≡◌, ◌≤◌, ◌+◌, ◌<◌, ◌^◌, ◌++◌, IfOk, OnOk, ◌==◌, ◌&&◌, IsTrue, MatchOption, drop, length, slice_index};
ghost use Rattle.link_bay.specs.ExactPeer.{nothing_yet, follow, size_in, answer_to, is_announcement, map_of, main_packet};

use std::alloc::Global;
use xp_base::NoMemory;

/// The hello of an exact client, with its packet header.
pub const EXACT_HELLO: &[u8; 39] = b"P\x00\x00\x00\x00\x00\x00\x1fl5:hellod9:encodingsl5:rgb32eee";

/// How a window's announcement begins, and the map that answers it.
const ANNOUNCEMENT: &[u8; 14] = b"l10:new-window";

const MAP: &[u8; 14] = b"l10:map-window";

/// The bytes of a packet's header.
const HEADER: usize = 8;

/// What a peer says to the packets that are whole, and how many bytes these have.
#[derive(Drop)]
pub struct Answered {
    pub bytes: Vec<u8>,
    pub used: usize,
}

/// Follows the bytes by their packets' headers alone, and answers each window's announcement.
pub fn answers(alloc: Global, sent: &[u8]) -> Result<Answered, NoMemory>
    ensures used { IfOk result (λ a. a.used ≤ length sent.now) }
    ensures said { IfOk result (λ a. follow nothing_yet sent.now ≡ record { said = a.bytes.items; rest = drop a.used sent.now }) }
{
    let mut bytes = Vec::new(alloc);
    let mut used = 0;
    'packets: while let Some(size) = frame_size(&sent[used..]) {
        answer(&mut bytes, &sent[used..used + size])?;
        used += size;
    }
    Ok(Answered { bytes, used })
}

/// The size of the frame that the bytes begin with, where it is whole.
fn frame_size(bytes: &[u8]) -> Option<usize>
    ensures { MatchOption result (length bytes.now < 8 + size_in bytes.now) (λ size. (size ≡ 8 + size_in bytes.now) × (size ≤ length bytes.now)) }
{
    if bytes.len() < HEADER {
        return None;
    }
    let size = u32::from(bytes[4]) * 0x1_000_000
        + u32::from(bytes[5]) * 0x10_000
        + u32::from(bytes[6]) * 0x100
        + u32::from(bytes[7]);
    let whole = HEADER + size as usize;
    if bytes.len() < whole {
        return None;
    }
    Some(whole)
}

/// Adds what is said to a whole frame.
fn answer(bytes: &mut Vec<u8>, frame: &[u8]) -> Result<(), NoMemory>
    requires long { 8 ≤ length frame.now }
    requires small { length frame.now < 8 + 2 ^ 32 }
    ensures { OnOk result (bytes.new.items ≡ bytes.old.items ++ answer_to frame.now) }
{
    if announces(frame) {
        push_map(bytes, &frame[HEADER..])?;
    }
    Ok(())
}

/// Whether a whole frame is a main packet that announces a window.
fn announces(frame: &[u8]) -> bool
    requires { 8 ≤ length frame.now }
    ensures says { result ≡ (slice_index frame.now 3 == 0 && is_announcement (drop 8 frame.now)) }
    ensures long { IsTrue result → 22 ≤ length frame.now }
{
    frame[3] == 0 && frame[HEADER..].starts_with(ANNOUNCEMENT)
}

/// Adds the map of the window that this content announces.
fn push_map(bytes: &mut Vec<u8>, content: &[u8]) -> Result<(), NoMemory>
    requires long { 14 ≤ length content.now }
    requires small { length content.now < 2 ^ 32 }
    ensures { OnOk result (bytes.new.items ≡ bytes.old.items ++ main_packet (map_of content.now)) }
{
    let count = content.len().saturating_sub(17);
    let numbers = &content[14..14 + count];
    let size = (MAP.len() + count + 1) as u32;
    bytes.extend_from_slice(b"P\x00\x00\x00")?;
    bytes.extend_from_slice(&size.to_be_bytes())?;
    bytes.extend_from_slice(MAP)?;
    bytes.extend_from_slice(numbers)?;
    bytes.push(b'e')?;
    Ok(())
}
