// A whole stream that comes in pieces.
ghost use Rattle.std.specs.Prelude.{◌≡◌, ℕ, List, IfOk, length};
ghost use Rattle.std.specs.List.{concat};
ghost use Rattle.packet_frames.specs.Stream.{packets_of};
ghost use Rattle.packet_frames.specs.Following.{Follows};
ghost use Rattle.packet_frames.specs.Pieces.{given_of, fault_of, LeavesUnread, TakesAll};

use crate::fault::FrameFault;
use crate::framer::Framer;
use crate::next::Next;
use bencode_values::Value;
use std::alloc::Global;
use xp_base::{Bytes, NoMemory};

/// What a stream holds.
#[derive(Debug, Drop)]
pub struct Held {
    /// Each packet's value, with the place of its main header.
    pub packets: Vec<(u64, Value)>,
    /// The first fault and its place, where there is one.
    pub fault: Option<(u64, FrameFault)>,
    /// How many bytes stand behind the last packet, where there is no fault.
    pub unread: u64,
}

/// What a stream holds that comes in these pieces: the packets of all its bytes, however they were cut.
pub fn read_pieces(alloc: Global, limit: u32, pieces: &[Bytes]) -> Result<Held, NoMemory>
    ensures packets { IfOk result (λ held. given_of held.packets.items ≡ (packets_of limit (concat pieces.now)).packets) }
    ensures fault { IfOk result (λ held. fault_of held.fault ≡ (packets_of limit (concat pieces.now)).fault) }
    ensures unread { IfOk result (λ held. LeavesUnread held.fault held.unread (length (packets_of limit (concat pieces.now)).rest)) }
{
    let mut framer = Framer::new(alloc, limit);
    let mut packets = Vec::new(alloc);
    let mut fault = None;
    for piece in pieces {
        framer.feed(piece.as_slice())?;
        fault = take_all(&mut framer, &mut packets)?;
    }
    let unread = framer.unread();
    Ok(Held {
        packets,
        fault,
        unread,
    })
}

/// Takes the packets that are there to the end of these, and the fault.
fn take_all(
    framer: &mut Framer,
    packets: &mut Vec<(u64, Value)>,
) -> Result<Option<(u64, FrameFault)>, NoMemory>
    ensures { (bytes : List ℕ) → Follows bytes (given_of packets.old.items) framer.old → IfOk result (TakesAll bytes packets.new.items framer.old.limit framer.new) }
{
    loop {
        match framer.next() {
            Next::Packet(place, value) => packets.push((place, value))?,
            Next::Need => return Ok(None),
            Next::Bad(place, fault) => return Ok(Some((place, fault))),
            Next::NoMemory => return Err(NoMemory),
        }
    }
}
