// A client's picture, read from the bytes sent to it.
ghost use Rattle.std.specs.Prelude.{◌≡◌, ◌≢◌, ◌++◌, ℕ, List, [], true, None, length};
ghost use Rattle.client_replay.specs.Replaying.{Replays, Stands, nothing_replayed, painting, Paints, Takes};

use crate::fault::{Fed, ReplayFault};
use crate::step::{Step, take};
use packet_frames::{Framer, Next};
use std::alloc::Global;
use std::marker::Model;
use std::mem;
use window_model::Desk;
use xp_base::NoMemory;

/// Reads the bytes that a server sends to one client, in whatever pieces they come, and keeps the picture that the
/// client has of the windows, and what an exact client answers. Places count from the first byte.
#[derive(Debug, Drop)]
pub struct Replay {
    alloc: Global,
    framer: Framer,
    desk: Desk,
    replies: Vec<u8>,
    fault: Option<(u64, ReplayFault)>,
    spent: bool,
}

impl Model for Replay {
    ghost use Rattle.client_replay.specs.Replaying.{Replaying, stop_of};

    ghost Value = { Replaying };

    ghost view = { λ r. record { framing = r.framer; windows = r.desk; waiting = r.replies.items; fault = stop_of r.fault; spent = r.spent } };
}

impl Replay {
    /// A replay of packets and chunks of at most so many bytes each.
    pub fn new(alloc: Global, limit: u32) -> Replay
        ensures value { result ≡ nothing_replayed limit }
        ensures history { Replays [] [] result }
    {
        Replay {
            alloc,
            framer: Framer::new(alloc, limit),
            desk: Desk::new(alloc),
            replies: Vec::new(alloc),
            fault: None,
            spent: false,
        }
    }

    /// Takes the next piece. After a fault it answers this fault, and after want of memory want of memory, for ever.
    pub fn feed(&mut self, piece: &[u8]) -> Fed
        // Picture and replies are those of all bytes so far, however they were cut.
        ensures history { (bytes taken : List ℕ) → Replays bytes taken self.old → Replays (bytes ++ piece.now) taken self.new }
        ensures stands { Stands self.new result }
        ensures spent { self.old.spent ≡ true → self.new ≡ self.old }
        ensures stopped { self.old.fault ≢ None → self.new ≡ self.old }
        ensures limit { self.new.framing.limit ≡ self.old.framing.limit }
    {
        if self.spent {
            return Fed::NoMemory;
        }
        if let Some((place, fault)) = self.fault {
            return Fed::Bad(place, fault);
        }
        if self.framer.feed(piece).is_err() {
            self.spent = true;
            return Fed::NoMemory;
        }
        let fed = take_all(
            self.alloc,
            &mut self.framer,
            &mut self.desk,
            &mut self.replies,
        );
        match fed {
            Fed::Ok => {}
            Fed::Bad(place, fault) => self.fault = Some((place, fault)),
            Fed::NoMemory => self.spent = true,
        }
        fed
    }

    /// The windows that the client shows, from bottom to top.
    pub fn picture(&self) -> &Desk
        ensures { result.now ≡ self.now.windows }
    {
        &self.desk
    }

    /// How many bytes were fed that belong to no packet yet.
    pub fn unread(&self) -> u64
        ensures { result ≡ length self.now.framing.rest }
    {
        self.framer.unread()
    }

    /// The replies that were not taken yet: those of an exact client, each once.
    pub fn replies(&mut self) -> Vec<u8>
        ensures taken { result.items ≡ self.old.waiting }
        ensures stays { self.new ≡ record self.old { waiting = [] } }
        ensures history { (bytes taken : List ℕ) → Replays bytes taken self.old → Replays bytes (taken ++ result.items) self.new }
    {
        mem::replace(&mut self.replies, Vec::new(self.alloc))
    }
}

/// Shows all packets that are there, up to the first fault.
fn take_all(alloc: Global, framer: &mut Framer, desk: &mut Desk, replies: &mut Vec<u8>) -> Fed
    ensures history { (bytes taken : List ℕ) → Paints bytes taken (painting framer.old desk.old replies.old.items)
        → Takes bytes taken result (painting framer.new desk.new replies.new.items) }
    ensures limit { framer.new.limit ≡ framer.old.limit }
{
    loop {
        match framer.next() {
            Next::Packet(place, value) => match take(alloc, value, desk, replies) {
                Step::Shown => {}
                Step::Faulty(fault) => return Fed::Bad(place, fault),
                Step::NoMemory => return Fed::NoMemory,
            },
            Next::Need => return Fed::Ok,
            Next::Bad(place, fault) => return Fed::Bad(place, ReplayFault::Frame(fault)),
            Next::NoMemory => return Fed::NoMemory,
        }
    }
}
