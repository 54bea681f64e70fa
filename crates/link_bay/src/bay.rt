// The provider of connections.
ghost use Rattle.std.specs.Prelude.{◌≡◌, ◌+◌, ◌<◌, ◌≤◌, ◌^◌, ℕ, Bool};
ghost use Rattle.link_bay.specs.Connections.{ConnectionRecord, OthersStay, AllStay};

use crate::order::Order;
use xp_base::{Conn, NoMemory};

/// How an accept went.
#[derive(Clone, Copy, Debug, PartialEq, Eq)]
pub enum Accept {
    /// A connection was handed out: its number is the next one.
    Conn(Conn),
    /// Nobody is there now.
    Nobody,
    /// The provider itself failed.
    Failed,
    NoMemory,
}

/// How a read went.
#[derive(Clone, Copy, Debug, PartialEq, Eq)]
pub enum Gave {
    /// So many bytes were appended, at least 1.
    Bytes(u32),
    /// There is nothing to read now.
    Again,
    /// The client has ended the connection.
    End,
    Failed,
    NoMemory,
}

/// How a write went.
#[derive(Clone, Copy, Debug, PartialEq, Eq)]
pub enum Wrote {
    /// So many bytes were taken, from the front of the piece.
    Took(u32),
    /// The write failed, and nothing was taken.
    Failed,
    NoMemory,
}

/// A provider of connections, which are numbered 0, 1, 2 and so on as they are accepted.
pub trait Bay {
    ghost use Rattle.link_bay.specs.Provider.{ProviderRecord};
    ghost use Rattle.link_bay.specs.Answers.{AcceptGives, ReadGives, WriteGives, OrderGives};

    /// Whether it tells the bytes of its connections.
    ghost tells: { Bool };

    /// What is known of each connection, by its number.
    ghost connection: { Self → ℕ → ConnectionRecord };

    /// What is known of the provider as a whole.
    ghost provider: { Self → ProviderRecord };

    fn accept(&mut self) -> Accept
        ensures answer { AcceptGives tells (provider self.old) (provider self.new) (connection self.new) result }
        ensures others { OthersStay (connection self.old) (connection self.new) (provider self.old).count }
        ensures numbered { (provider self.new).count + (provider self.new).room < 2 ^ 32 };

    /// Appends at most `max` bytes. Every answer but `Bytes` appends nothing.
    fn read(&mut self, c: Conn, into: &mut Vec<u8>, max: u32) -> Gave
        requires known { c.0 < (provider self.old).count }
        requires some { 1 ≤ max }
        ensures answer { ReadGives (connection self.old c.0) (connection self.new c.0) into.old.items into.new.items max result }
        ensures others { OthersStay (connection self.old) (connection self.new) c.0 }
        ensures provider { provider self.new ≡ provider self.old };

    /// Takes bytes from the front of the piece, perhaps none. Every answer but `Took` takes nothing.
    fn write(&mut self, c: Conn, piece: &[u8]) -> Wrote
        requires known { c.0 < (provider self.old).count }
        ensures answer { WriteGives (connection self.old c.0) (connection self.new c.0) piece.now result }
        ensures others { OthersStay (connection self.old) (connection self.new) c.0 }
        ensures provider { provider self.new ≡ provider self.old };

    /// Says that nothing more is read or written on it. What is known of it stays, and its number stays its own.
    fn close(&mut self, c: Conn)
        requires known { c.0 < (provider self.old).count }
        ensures connections { AllStay (connection self.old) (connection self.new) }
        ensures provider { provider self.new ≡ provider self.old };

    /// Asks a provider in memory for a peer, or for a peer's act; others do nothing.
    fn order(&mut self, order: &Order) -> Result<(), NoMemory>
        ensures answer { OrderGives (provider self.old) (provider self.new) order.now result }
        ensures connections { AllStay (connection self.old) (connection self.new) }
        ensures numbered { (provider self.new).count + (provider self.new).room < 2 ^ 32 };
}
