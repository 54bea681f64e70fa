// A provider that tells nothing, as sockets do.
ghost use Rattle.std.specs.Prelude.{◌≡◌, ◌+◌, ◌<◌, ◌^◌, false, length, min};
ghost use Rattle.link_bay.specs.Answers.{WriteGives};
ghost use Rattle.link_bay.specs.Connections.{OthersStay};
ghost use Rattle.link_bay.specs.Counted.{mutes_connection, mutes_provider};
ghost use Rattle.link_bay.specs.Provider.{IsFresh};

use crate::bay::{Accept, Bay, Gave, Wrote};
use crate::counters::Counters;
use crate::order::Order;
use std::alloc::Global;
use xp_base::{Conn, NoMemory};

/// A provider, for tests, that tells nothing: its clients say nothing, and take at most so many bytes a write.
#[derive(Drop)]
pub struct MuteBay {
    clients: Vec<Counters>,
    room: u32,
    quota: u32,
    lulls: u64,
    ghost numbered: { length clients.items + room < 2 ^ 32 },
}

impl MuteBay {
    /// Nobody was handed out yet, and `room` clients may be.
    pub fn new(alloc: Global, room: u32, quota: u32) -> MuteBay
        ensures fresh { IsFresh (mutes_provider result.clients.items result.room result.lulls) }
        ensures room { result.room ≡ room }
        ensures quota { result.quota ≡ quota }
    {
        MuteBay {
            clients: Vec::new(alloc),
            room,
            quota,
            lulls: 0,
        }
    }
}

impl Bay for MuteBay {
    ghost tells = { false };

    ghost connection = { λ b. mutes_connection b.clients.items };

    ghost provider = { λ b. mutes_provider b.clients.items b.room b.lulls };

    fn accept(&mut self) -> Accept {
        if self.room == 0 {
            self.lulls = self.lulls.saturating_add(1);
            return Accept::Nobody;
        }
        let number = self.clients.len();
        if self.clients.push(Counters::new()).is_err() {
            return Accept::NoMemory;
        }
        self.room -= 1;
        Accept::Conn(Conn(number as u32))
    }

    fn read(&mut self, c: Conn, into: &mut Vec<u8>, max: u32) -> Gave {
        let client = &mut self.clients[c.0 as usize];
        client.waited();
        Gave::Again
    }

    fn write(&mut self, c: Conn, piece: &[u8]) -> Wrote
        requires known { c.0 < length self.old.clients.items }
        ensures exact { (result ≡ Wrote.Took (min (length piece.now) self.old.quota)) × (self.new.quota ≡ self.old.quota) }
        ensures answer { WriteGives (mutes_connection self.old.clients.items c.0) (mutes_connection self.new.clients.items c.0) piece.now result }
        ensures others { OthersStay (mutes_connection self.old.clients.items) (mutes_connection self.new.clients.items) c.0 }
        ensures provider { mutes_provider self.new.clients.items self.new.room self.new.lulls ≡ mutes_provider self.old.clients.items self.old.room self.old.lulls }
    {
        let taken = piece.len().min(self.quota as usize) as u32;
        let client = &mut self.clients[c.0 as usize];
        client.took(piece, taken);
        Wrote::Took(taken)
    }

    fn close(&mut self, c: Conn) {}

    fn order(&mut self, order: &Order) -> Result<(), NoMemory> {
        Ok(())
    }
}
