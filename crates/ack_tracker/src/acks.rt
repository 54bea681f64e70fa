// The unacknowledged draws of one window.
ghost use Rattle.std.specs.Prelude.{◌≡◌, ◌+◌, ◌<◌, ◌≤◌, ◌^◌, ◌<ℤ◌, pos, [], length, None, IsOk, OnOk, OnErr, MatchOption};
ghost use Rattle.delivery_model.specs.Events.{rect_sent};
ghost use Rattle.ack_tracker.specs.Unacknowledged.{Tracked, sent_as, placed, rect_at, AckGives};
ghost use Rattle.ack_tracker.specs.Places.{IsTracked};

use crate::ack::Ack;
use std::alloc::Global;
use std::collections::HashMap;
use std::marker::Model;
use xp_base::{NoMemory, Rect};

/// The draws of one window that were queued and are not acknowledged, by their sequence numbers. To
/// queue a draw, to find one and to acknowledge one costs the same however many there are.
#[derive(Drop)]
pub struct Acks {
    draws: HashMap<u64, Rect>,
}

impl Model for Acks {
    ghost use Rattle.std.specs.HashMap.{spare};
    ghost use Rattle.ack_tracker.specs.Unacknowledged.{Tracked};
    ghost use Rattle.ack_tracker.specs.Kept.{in_order, IsKept};

    ghost Value = { Tracked };

    ghost view = { λ a. record { draws = in_order a.draws.entries; room = spare a.draws } };

    ghost invariant = { λ a. IsKept a.draws.entries };
}

impl Acks {
    pub fn new(alloc: Global) -> Acks
        ensures { result.draws ≡ [] }
    {
        Acks {
            draws: HashMap::new(alloc),
        }
    }

    /// After it so many draws can be queued without memory.
    pub fn reserve(&mut self, n: u32) -> Result<(), NoMemory>
        ensures same { self.new.draws ≡ self.old.draws }
        ensures ok { OnOk result (n ≤ self.new.room) }
        ensures room { self.old.room ≤ self.new.room }
    {
        self.draws.reserve(n as usize)?;
        Ok(())
    }

    /// A draw of this rectangle was queued with this number, which no unacknowledged draw has.
    pub fn queued(&mut self, seq: u64, r: Rect) -> Result<(), NoMemory>
        requires small { seq < 2 ^ 63 }
        requires unused { rect_sent self.old.draws seq ≡ None }
        requires few { length self.old.draws < 2 ^ 31 }
        ensures ok { OnOk result (self.new.draws ≡ placed self.old.draws (sent_as seq r)) }
        ensures err { OnErr result (self.new.draws ≡ self.old.draws) }
        ensures reserved { 0 < self.old.room → IsOk result }
        ensures room { self.old.room ≤ self.new.room + 1 }
    {
        self.draws.insert(seq, r)?;
        Ok(())
    }

    /// The rectangle of the unacknowledged draw with this number. `None` exactly where there is none.
    pub fn rect_of(&self, seq: i64) -> Option<Rect>
        ensures { result ≡ rect_at self.now.draws seq }
    {
        let number = number_of(seq)?;
        self.draws.get(&number).copied()
    }

    /// The client says that it has drawn the draw with this number, in so many milliseconds; a negative
    /// time says that it could not.
    pub fn ack(&mut self, seq: i64, time: i64) -> Ack
        ensures answer { AckGives self.old.draws self.new.draws seq time result }
        ensures room { self.old.room ≤ self.new.room }
    {
        let Some(number) = number_of(seq) else {
            return Ack::Stray;
        };
        let Some(rect) = self.draws.remove(&number) else {
            return Ack::Stray;
        };
        if time < 0 {
            return Ack::Again(rect);
        }
        Ack::Counted
    }

    /// How many draws are unacknowledged.
    pub fn load(&self) -> u32
        ensures count { result ≡ length self.now.draws }
        ensures kept { IsTracked self.now.draws }
    {
        self.draws.len() as u32
    }
}

// The number of a draw that a client says; no draw has a negative one.
fn number_of(seq: i64) -> Option<u64>
    ensures { MatchOption result (seq <ℤ pos 0) (λ number. seq ≡ pos number) }
{
    if seq < 0 {
        return None;
    }
    Some(seq as u64)
}
