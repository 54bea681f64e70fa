// One exact peer in memory.
ghost use Rattle.std.specs.Prelude.{◌≡◌, ◌<◌};

use crate::bay::{Accept, Bay, Gave, Wrote};
use crate::order::{Kind, Order};
use crate::peer::{EXACT_HELLO, answers};
use crate::writes::Write;
use std::alloc::Global;
use std::marker::Model;
use xp_base::{Conn, NoMemory};

/// At most one exact peer without a uuid, which `order` adds. It says an exact client's hello, and
/// answers each window's announcement by a map of the window. Every write takes all. What each call
/// does beside the trait's rows is its clause `exact`.
#[derive(Drop)]
pub struct OneBay {
    alloc: Global,
    joined: bool,
    accepted: bool,
    /// All that the peer says, of which the first `place` bytes were handed out.
    said: Vec<u8>,
    place: usize,
    sent: Vec<u8>,
    /// How many of the bytes sent stand in whole packets.
    followed: usize,
    writes: Vec<Write>,
    lulls: u64,
    waits: u64,
    unheard: u64,
}

impl Model for OneBay {
    ghost use Rattle.std.specs.Prelude.{◌≡◌, ◌≤◌, ◌+◌, [], take, vec_len, true, false};
    ghost use Rattle.link_bay.specs.Peers.{OnePeer};
    ghost use Rattle.link_bay.specs.Writes.{heard_of};
    ghost use Rattle.link_bay.specs.OneKept.{IsOneBay};

    ghost Value = { OnePeer };

    ghost view = { λ b. record {
      joined = b.joined;
      accepted = b.accepted;
      sent = b.sent.items;
      given = take b.place b.said.items;
      heard = heard_of b.writes.items;
      lulls = b.lulls;
      waits = b.waits;
      unheard = b.unheard;
    } };

    ghost invariant = { λ b. IsOneBay b.joined b.accepted b.said.items b.place b.sent.items b.followed b.writes.items b.waits b.unheard };
}

impl OneBay {
    ghost use Rattle.link_bay.specs.Peers.{no_peer};

    pub fn new(alloc: Global) -> OneBay
        ensures { result ≡ no_peer }
    {
        OneBay {
            alloc,
            joined: false,
            accepted: false,
            said: Vec::new(alloc),
            place: 0,
            sent: Vec::new(alloc),
            followed: 0,
            writes: Vec::new(alloc),
            lulls: 0,
            waits: 0,
            unheard: 0,
        }
    }

    /// The bytes that were sent to the peer.
    pub fn sent_bytes(&self) -> &[u8]
        ensures { result.now ≡ self.now.sent }
    {
        self.sent.as_slice()
    }
}

impl Bay for OneBay {
    ghost use Rattle.std.specs.Prelude.{◌≡◌, ◌<◌, ◌≤◌, ◌+◌, ◌^◌, true};
    ghost use Rattle.link_bay.specs.Connections.{OthersStay, AllStay};
    ghost use Rattle.link_bay.specs.Answers.{AcceptGives, ReadGives, WriteGives, OrderGives};
    ghost use Rattle.link_bay.specs.Peers.{one_connection, one_provider};
    ghost use Rattle.link_bay.specs.OneSteps.{AcceptOfOne, ReadOfOne, WriteOfOne, OrderOfOne};

    ghost tells = { true };

    ghost connection = { one_connection };

    ghost provider = { one_provider };

    fn accept(&mut self) -> Accept
        ensures exact { AcceptOfOne self.old self.new result }
        ensures answer { AcceptGives true (one_provider self.old) (one_provider self.new) (one_connection self.new) result }
        ensures others { OthersStay (one_connection self.old) (one_connection self.new) (one_provider self.old).count }
        ensures numbered { (one_provider self.new).count + (one_provider self.new).room < 2 ^ 32 }
    {
        if !self.joined || self.accepted {
            self.lulls = self.lulls.saturating_add(1);
            return Accept::Nobody;
        }
        self.accepted = true;
        Accept::Conn(Conn(0))
    }

    fn read(&mut self, c: Conn, into: &mut Vec<u8>, max: u32) -> Gave
        requires known { c.0 < (one_provider self.old).count }
        requires some { 1 ≤ max }
        ensures exact { ReadOfOne self.old self.new into.old.items into.new.items max result }
        ensures answer { ReadGives (one_connection self.old c.0) (one_connection self.new c.0) into.old.items into.new.items max result }
        ensures others { OthersStay (one_connection self.old) (one_connection self.new) c.0 }
        ensures provider { one_provider self.new ≡ one_provider self.old }
    {
        let rest = &self.said[self.place..];
        let count = rest.len().min(max as usize);
        if count == 0 {
            self.waits = self.waits.saturating_add(1);
            self.unheard = 0;
            return Gave::Again;
        }
        if into.extend_from_slice(&rest[..count]).is_err() {
            return Gave::NoMemory;
        }
        self.place += count;
        Gave::Bytes(count as u32)
    }

    fn write(&mut self, c: Conn, piece: &[u8]) -> Wrote
        requires known { c.0 < (one_provider self.old).count }
        ensures exact { WriteOfOne self.old self.new piece.now result }
        ensures answer { WriteGives (one_connection self.old c.0) (one_connection self.new c.0) piece.now result }
        ensures others { OthersStay (one_connection self.old) (one_connection self.new) c.0 }
        ensures provider { one_provider self.new ≡ one_provider self.old }
    {
        let count = piece.len().min(u32::MAX as usize);
        let before = self.sent.len();
        if self.writes.reserve(1).is_err()
            || self.sent.extend_from_slice(&piece[..count]).is_err()
        {
            return Wrote::NoMemory;
        }
        let Ok(answered) = answers(self.alloc, &self.sent[self.followed..]) else {
            self.sent.truncate(before);
            return Wrote::NoMemory;
        };
        if self
            .said
            .extend_from_slice(answered.bytes.as_slice())
            .is_err()
        {
            self.sent.truncate(before);
            return Wrote::NoMemory;
        }
        self.followed += answered.used;
        self.writes.push_reserved(Write {
            taken: count,
            given: self.place,
        });
        self.unheard = self.unheard.saturating_add(count as u64);
        Wrote::Took(count as u32)
    }

    fn close(&mut self, c: Conn)
        requires known { c.0 < (one_provider self.old).count }
        ensures exact { self.new ≡ self.old }
        ensures connections { AllStay (one_connection self.old) (one_connection self.new) }
        ensures provider { one_provider self.new ≡ one_provider self.old }
    {}

    fn order(&mut self, order: &Order) -> Result<(), NoMemory>
        ensures exact { OrderOfOne self.old self.new order.now result }
        ensures answer { OrderGives (one_provider self.old) (one_provider self.new) order.now result }
        ensures connections { AllStay (one_connection self.old) (one_connection self.new) }
        ensures numbered { (one_provider self.new).count + (one_provider self.new).room < 2 ^ 32 }
    {
        if self.joined {
            return Ok(());
        }
        if let Order::Join(Kind::Exact, name) = order {
            if name.as_slice().is_empty() {
                self.said.extend_from_slice(EXACT_HELLO)?;
                self.joined = true;
            }
        }
        Ok(())
    }
}
