// What a provider in memory may be asked for.
ghost use Rattle.std.specs.Prelude.{◌≡◌, IfOk};

use std::alloc::Global;
use std::marker::Model;
use xp_base::{Conn, NoMemory, Wid};

/// The uuid of an exact or a lossy peer, the first bytes of a scripted one, and empty for a stalling one.
#[derive(Debug, Drop)]
pub struct Name(Vec<u8>);

impl Model for Name {
    ghost use Rattle.std.specs.Prelude.{List, ℕ};

    ghost Value = { List ℕ };

    ghost view = { λ n. n.0.items };
}

impl Name {
    pub fn new(items: Vec<u8>) -> Name
        ensures { result ≡ items.items }
    {
        Name(items)
    }

    pub fn as_slice(&self) -> &[u8]
        ensures { result.now ≡ self.now }
    {
        self.0.as_slice()
    }

    pub fn into_vec(self) -> Vec<u8>
        ensures { result.items ≡ self }
    {
        let Name(items) = self;
        items
    }

    pub fn copy(&self, alloc: Global) -> Result<Name, NoMemory>
        ensures { IfOk result (λ name. name ≡ self.now) }
    {
        Ok(Name(self.0.as_slice().to_vec(alloc)?))
    }
}

/// A kind of peer in memory.
#[derive(Clone, Copy, Debug, PartialEq, Eq)]
pub enum Kind {
    /// It takes exact draws alone.
    Exact,
    /// It takes lossy draws too.
    Lossy,
    /// Its first writes of some bytes, so many, take nothing.
    Dry(u32),
    /// It says the bytes that it was ordered with, and answers nothing.
    Hex,
}

/// An order for a peer, or for a peer's act.
#[derive(Debug, Drop)]
pub enum Order {
    Join(Kind, Name),
    Map(Conn, Wid),
    Unmap(Conn, Wid),
    Refresh(Conn, Wid),
    Leave(Conn),
    Say(Conn, Name),
}

impl Order {
    ghost use Rattle.link_bay.specs.declared.order.Order.{Order};

    pub fn copy(&self, alloc: Global) -> Result<Order, NoMemory>
        ensures { IfOk result (λ order. order ≡ self.now) }
    {
        Ok(match self {
            Order::Join(kind, name) => Order::Join(*kind, name.copy(alloc)?),
            Order::Map(conn, wid) => Order::Map(*conn, *wid),
            Order::Unmap(conn, wid) => Order::Unmap(*conn, *wid),
            Order::Refresh(conn, wid) => Order::Refresh(*conn, *wid),
            Order::Leave(conn) => Order::Leave(*conn),
            Order::Say(conn, bytes) => Order::Say(*conn, bytes.copy(alloc)?),
        })
    }
}
