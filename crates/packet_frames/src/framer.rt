// Packets of a stream that comes in pieces.
ghost use Rattle.std.specs.Prelude.{◌≡◌, ℕ, ◌+◌, List, [], ◌++◌, OnOk, OnErr, is_ok, if◌then◌else◌, length, vec_len, false};
ghost use Rattle.packet_frames.specs.Following.{Framing, Follows, fed, Gives, Tells, KeepsFault, IsShortAt};
ghost use Rattle.packet_frames.specs.Stream.{Packet};

use crate::begun::Begun;
use crate::fault::FrameFault;
use crate::next::Next;
use crate::packet::packet_in;
use std::alloc::Global;
use std::marker::Model;
use xp_base::NoMemory;

/// Reads the packets of a stream of bytes, in whatever pieces it comes. Places count from the stream's first
/// byte, and stay at the greatest `u64` once there.
#[derive(Debug, Drop)]
pub struct Framer {
    limit: u32,
    buffer: Vec<u8>,
    taken: usize,
    start: u64,
    wanted: usize,
    fault: Option<(u64, FrameFault)>,
}

impl Model for Framer {
    ghost use Rattle.std.specs.Prelude.{drop, vec_len, is_some};
    ghost use Rattle.packet_frames.specs.Following.{Framing};
    ghost use Rattle.packet_frames.specs.Framers.{IsFramer};

    ghost Value = { Framing };

    ghost view = { λ f. record { limit = f.limit; start = f.start; rest = drop f.taken f.buffer.items; stopped = is_some f.fault } };

    ghost invariant = { λ f. IsFramer f.limit f.start f.taken (vec_len f.buffer) f.wanted (drop f.taken f.buffer.items) f.fault };
}

impl Framer {
    /// A framer at the start of a stream, whose chunks and main packets have at most so many bytes each.
    pub fn new(alloc: Global, limit: u32) -> Framer
        ensures start { result ≡ record { limit = limit; start = 0; rest = []; stopped = false } }
        ensures history { Follows [] [] result }
    {
        Framer {
            limit,
            buffer: Vec::new(alloc),
            taken: 0,
            start: 0,
            wanted: 0,
            fault: None,
        }
    }

    /// Takes the next piece of the stream. After a fault was answered it does nothing.
    pub fn feed(&mut self, piece: &[u8]) -> Result<(), NoMemory>
        ensures ok { OnOk result (self.new ≡ fed self.old piece.now) }
        ensures err { OnErr result (self.new ≡ self.old) }
        // The packets are those of all bytes so far, however they were cut.
        ensures history { (bytes : List ℕ) (given : List Packet) → Follows bytes given self.old → OnOk result (Follows (bytes ++ piece.now) given self.new) }
    {
        if self.fault.is_some() {
            return Ok(());
        }
        if self.taken > self.buffer.len() / 2 {
            self.buffer.drain(..self.taken);
            self.taken = 0;
        }
        take_in(&mut self.buffer, self.wanted, piece)?;
        self.wanted = self.wanted.saturating_sub(piece.len());
        Ok(())
    }

    /// The next packet of the bytes so far.
    pub fn next(&mut self) -> Next
        ensures gives { Gives self.old result self.new }
        // What that says of all bytes so far, however they were cut.
        ensures history { (bytes : List ℕ) (given : List Packet) → Follows bytes given self.old → Tells bytes given result self.new }
        // After a fault was answered it is answered for ever.
        ensures again { KeepsFault self.old result }
        // A packet that is not whole never holds more than that.
        ensures short { IsShortAt result self.new }
    {
        if let Some((place, fault)) = self.fault {
            return Next::Bad(place, fault);
        }
        let rest = &self.buffer[self.taken..];
        if self.wanted > 0 {
            return Next::Need;
        }
        let alloc = *self.buffer.allocator();
        match packet_in(alloc, self.limit, rest) {
            Ok(Begun::Whole(at, value, size)) => {
                let place = self.start.saturating_add(at as u64);
                self.start = self.start.saturating_add(size as u64);
                self.taken += size;
                Next::Packet(place, value)
            }
            Ok(Begun::Wrong(at, fault)) => {
                let place = self.start.saturating_add(at as u64);
                self.fault = Some((place, fault));
                Next::Bad(place, fault)
            }
            Ok(Begun::Part(more)) => {
                self.wanted = more;
                Next::Need
            }
            Err(NoMemory) => Next::NoMemory,
        }
    }

    /// How many bytes were fed that belong to no packet given.
    pub fn unread(&self) -> u64
        ensures { result ≡ length self.now.rest }
    {
        (self.buffer.len() - self.taken) as u64
    }
}

/// Adds a piece to the bytes, with room for those that their packet still wants, so that they need not grow again.
fn take_in(buffer: &mut Vec<u8>, wanted: usize, piece: &[u8]) -> Result<(), NoMemory>
    ensures items { buffer.new.items ≡ (if is_ok result then buffer.old.items ++ piece.now else buffer.old.items) }
    ensures len { vec_len buffer.new ≡ (if is_ok result then vec_len buffer.old + length piece.now else vec_len buffer.old) }
{
    buffer.reserve(wanted.max(piece.len()))?;
    buffer.extend_from_slice(piece)?;
    Ok(())
}
