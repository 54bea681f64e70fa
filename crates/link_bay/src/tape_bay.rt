// Tapes for clients.
ghost use Rattle.std.specs.Prelude.{◌≡◌, ◌<◌, ◌≤◌, ◌^◌, length, IfSome, slice_get, All};
ghost use Rattle.link_bay.specs.Tapes.{new_tapes};

use crate::bay::{Accept, Bay, Gave, Wrote};
use crate::inbound::Inbound;
use crate::order::Order;
use crate::played::Played;
use std::collections::VecDeque;
use std::marker::Model;
use xp_base::{Conn, NoMemory};

/// A provider, for tests, of clients whose words are written down beforehand. The tapes are accepted
/// in their order. It takes no orders. What each call does beside the trait's rows is its clause `exact`.
#[derive(Drop)]
pub struct TapeBay {
    waiting: VecDeque<Inbound>,
    played: Vec<Played>,
    failing: Vec<u64>,
    accepts: u64,
    faults: u64,
    lulls: u64,
}

impl Model for TapeBay {
    ghost use Rattle.std.specs.Prelude.{◌+◌, ◌<◌, ◌≤◌, ◌^◌, All, length, map};
    ghost use Rattle.link_bay.specs.Tapes.{TapeProvider, tape_of};

    ghost Value = { TapeProvider };

    ghost view = { λ b. record {
      waiting = map tape_of b.waiting.items;
      played = b.played.items;
      failing = b.failing.items;
      accepts = b.accepts;
      faults = b.faults;
      lulls = b.lulls;
    } };

    ghost invariant = { λ b. (length b.waiting.items + length b.played.items < 2 ^ 32) × All (λ i. 1 ≤ i.piece) b.waiting.items };
}

impl TapeBay {
    /// `failing` has the numbers of the accepts that fail, counted from 1. Such an accept hands nobody out.
    pub fn new(tapes: Vec<Inbound>, failing: Vec<u64>) -> TapeBay
        requires few { length tapes.items < 2 ^ 32 }
        requires pieces { All (λ i. 1 ≤ i.piece) tapes.items }
        ensures { result ≡ new_tapes tapes.items failing.items }
    {
        let alloc = *tapes.allocator();
        TapeBay {
            waiting: VecDeque::from_vec(tapes),
            played: Vec::new(alloc),
            failing,
            accepts: 0,
            faults: 0,
            lulls: 0,
        }
    }

    /// The bytes that were sent on a connection that was handed out.
    pub fn sent_bytes(&self, c: Conn) -> &[u8]
        requires { c.0 < length self.now.played }
        ensures { IfSome (slice_get self.now.played c.0) (λ p. result.now ≡ p.sent) }
    {
        self.played[c.0 as usize].sent_bytes()
    }
}

impl Bay for TapeBay {
    ghost use Rattle.std.specs.Prelude.{◌≡◌, ◌<◌, ◌≤◌, ◌+◌, ◌^◌, true, IsOk};
    ghost use Rattle.link_bay.specs.Connections.{OthersStay, AllStay};
    ghost use Rattle.link_bay.specs.Answers.{AcceptGives, ReadGives, WriteGives, OrderGives};
    ghost use Rattle.link_bay.specs.Tapes.{tapes_connection, tapes_provider};
    ghost use Rattle.link_bay.specs.TapeSteps.{AcceptOfTapes, ReadOfTape, WriteOfTape, OnTape};

    ghost tells = { true };

    ghost connection = { tapes_connection };

    ghost provider = { tapes_provider };

    fn accept(&mut self) -> Accept
        ensures exact { AcceptOfTapes self.old self.new result }
        ensures answer { AcceptGives true (tapes_provider self.old) (tapes_provider self.new) (tapes_connection self.new) result }
        ensures others { OthersStay (tapes_connection self.old) (tapes_connection self.new) (tapes_provider self.old).count }
        ensures numbered { (tapes_provider self.new).count + (tapes_provider self.new).room < 2 ^ 32 }
    {
        self.accepts = self.accepts.saturating_add(1);
        if self.failing.contains(&self.accepts) {
            self.faults = self.faults.saturating_add(1);
            return Accept::Failed;
        }
        if self.waiting.is_empty() {
            self.lulls = self.lulls.saturating_add(1);
            return Accept::Nobody;
        }
        if self.played.reserve(1).is_err() {
            return Accept::NoMemory;
        }
        let Some(tape) = self.waiting.pop_front() else {
            unreachable!()
        };
        let number = self.played.len() as u32;
        self.played.push_reserved(Played::new(tape));
        Accept::Conn(Conn(number))
    }

    fn read(&mut self, c: Conn, into: &mut Vec<u8>, max: u32) -> Gave
        requires known { c.0 < (tapes_provider self.old).count }
        requires some { 1 ≤ max }
        ensures exact { OnTape self.old self.new c.0 (λ was is. ReadOfTape was is into.old.items into.new.items max result) }
        ensures answer { ReadGives (tapes_connection self.old c.0) (tapes_connection self.new c.0) into.old.items into.new.items max result }
        ensures others { OthersStay (tapes_connection self.old) (tapes_connection self.new) c.0 }
        ensures provider { tapes_provider self.new ≡ tapes_provider self.old }
    {
        let tape = &mut self.played[c.0 as usize];
        tape.read(into, max)
    }

    fn write(&mut self, c: Conn, piece: &[u8]) -> Wrote
        requires known { c.0 < (tapes_provider self.old).count }
        ensures exact { OnTape self.old self.new c.0 (λ was is. WriteOfTape was is piece.now result) }
        ensures answer { WriteGives (tapes_connection self.old c.0) (tapes_connection self.new c.0) piece.now result }
        ensures others { OthersStay (tapes_connection self.old) (tapes_connection self.new) c.0 }
        ensures provider { tapes_provider self.new ≡ tapes_provider self.old }
    {
        let tape = &mut self.played[c.0 as usize];
        tape.write(piece)
    }

    fn close(&mut self, c: Conn)
        requires known { c.0 < (tapes_provider self.old).count }
        ensures exact { self.new ≡ self.old }
        ensures connections { AllStay (tapes_connection self.old) (tapes_connection self.new) }
        ensures provider { tapes_provider self.new ≡ tapes_provider self.old }
    {}

    fn order(&mut self, order: &Order) -> Result<(), NoMemory>
        ensures exact { (self.new ≡ self.old) × IsOk result }
        ensures answer { OrderGives (tapes_provider self.old) (tapes_provider self.new) order.now result }
        ensures connections { AllStay (tapes_connection self.old) (tapes_connection self.new) }
        ensures numbered { (tapes_provider self.new).count + (tapes_provider self.new).room < 2 ^ 32 }
    {
        // For the prover: the numbers of the connections are bounded by the type.
        let _ = &self.waiting;
        Ok(())
    }
}
