// Connections come.
ghost use Rattle.std.specs.Prelude.{◌≡◌, ◌≢◌, ◌≤◌, ◌++◌};
ghost use Rattle.link_bay.specs.Connections.{OthersStay};
ghost use Rattle.session_core.specs.State.{open_count};

use crate::answers::Accepted;
use crate::state::Session;
use client_connection::{Client, End};
use link_bay::{Accept, Bay};

/// How many connections may be open at once.
const CAPACITY: usize = 1;

impl<B: Bay + Drop> Session<B> {
    ghost use Rattle.session_core.specs.State.{KeepsWindows};
    ghost use Rattle.session_core.specs.Steps.{Accepts, accepted_ends};

    /// Accepts a connection, where fewer are open than may be. What may fail for memory is done
    /// before the provider is asked.
    pub fn accept(&mut self) -> Accepted
        ensures answer { Accepts B.provider B.connection B.tells self.old result self.new }
        ensures windows { KeepsWindows self.old self.new }
        ensures well { result ≢ Accepted.Failed → (B.provider self.new.bay).faults ≡ (B.provider self.old.bay).faults }
        ensures lulls { (B.provider self.old.bay).lulls ≤ (B.provider self.new.bay).lulls }
        ensures ends { self.new.ends ≡ self.old.ends ++ accepted_ends result }
        ensures others { OthersStay (B.connection self.old.bay) (B.connection self.new.bay) (B.provider self.old.bay).count }
    {
        if count_some(&self.clients) >= CAPACITY {
            return Accepted::Full;
        }
        if self.clients.reserve(1).is_err() || self.ends.reserve(1).is_err() {
            return Accepted::NoMemory;
        }
        match self.bay.accept() {
            Accept::Conn(c) => {
                self.clients.push_reserved(Some(Client::new(self.alloc)));
                self.ends.push_reserved(End::Unended);
                Accepted::Conn(c)
            }
            Accept::Nobody => Accepted::Nobody,
            Accept::Failed => Accepted::Failed,
            Accept::NoMemory => Accepted::NoMemory,
        }
    }
}

fn count_some<T>(slots: &[Option<T>]) -> usize
    ensures { result ≡ open_count slots.now }
{
    slots.iter().filter(|slot| slot.is_some()).count()
}
