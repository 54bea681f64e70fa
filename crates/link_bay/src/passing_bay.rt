// A provider round another, which counts what is closed.
ghost use Rattle.std.specs.Prelude.{◌≡◌};
ghost use Rattle.link_bay.specs.Closes.{no_closes};

use crate::bay::{Accept, Bay, Gave, Wrote};
use crate::order::Order;
use xp_base::{Conn, NoMemory};

/// A provider, for tests, that passes each call on to another one. It counts how often each of the first
/// four connections was closed.
#[derive(Drop)]
pub struct PassingBay<B: Bay + Drop> {
    inner: B,
    closes: [u32; 4],
}

impl<B: Bay + Drop> PassingBay<B> {
    pub fn new(inner: B) -> PassingBay<B>
        ensures { result ≡ record { inner = inner; closes = no_closes } }
    {
        PassingBay {
            inner,
            closes: [0; 4],
        }
    }

    /// How often each of the first four connections was closed.
    pub fn closes(&self) -> [u32; 4]
        ensures { result ≡ self.now.closes }
    {
        self.closes
    }

    pub fn into_inner(self) -> B
        ensures { result ≡ self.inner }
    {
        let PassingBay { inner, .. } = self;
        inner
    }
}

impl<B: Bay + Drop> Bay for PassingBay<B> {
    ghost use Rattle.std.specs.Prelude.{◌<◌, ◌≤◌, ◌+◌, ◌^◌};
    ghost use Rattle.link_bay.specs.Connections.{OthersStay, AllStay};
    ghost use Rattle.link_bay.specs.Answers.{AcceptGives, ReadGives, WriteGives, OrderGives};
    ghost use Rattle.link_bay.specs.Closes.{closed_once};

    ghost tells = { B.tells };

    ghost connection = { λ b. B.connection b.inner };

    ghost provider = { λ b. B.provider b.inner };

    fn accept(&mut self) -> Accept
        ensures closes { self.new.closes ≡ self.old.closes }
        ensures answer { AcceptGives B.tells (B.provider self.old.inner) (B.provider self.new.inner) (B.connection self.new.inner) result }
        ensures others { OthersStay (B.connection self.old.inner) (B.connection self.new.inner) (B.provider self.old.inner).count }
        ensures numbered { (B.provider self.new.inner).count + (B.provider self.new.inner).room < 2 ^ 32 }
    {
        self.inner.accept()
    }

    fn read(&mut self, c: Conn, into: &mut Vec<u8>, max: u32) -> Gave
        requires known { c.0 < (B.provider self.old.inner).count }
        requires some { 1 ≤ max }
        ensures closes { self.new.closes ≡ self.old.closes }
        ensures answer { ReadGives (B.connection self.old.inner c.0) (B.connection self.new.inner c.0) into.old.items into.new.items max result }
        ensures others { OthersStay (B.connection self.old.inner) (B.connection self.new.inner) c.0 }
        ensures provider { B.provider self.new.inner ≡ B.provider self.old.inner }
    {
        self.inner.read(c, into, max)
    }

    fn write(&mut self, c: Conn, piece: &[u8]) -> Wrote
        requires known { c.0 < (B.provider self.old.inner).count }
        ensures closes { self.new.closes ≡ self.old.closes }
        ensures answer { WriteGives (B.connection self.old.inner c.0) (B.connection self.new.inner c.0) piece.now result }
        ensures others { OthersStay (B.connection self.old.inner) (B.connection self.new.inner) c.0 }
        ensures provider { B.provider self.new.inner ≡ B.provider self.old.inner }
    {
        self.inner.write(c, piece)
    }

    fn close(&mut self, c: Conn)
        requires known { c.0 < (B.provider self.old.inner).count }
        ensures closes { self.new.closes ≡ closed_once self.old.closes c.0 }
        ensures connections { AllStay (B.connection self.old.inner) (B.connection self.new.inner) }
        ensures provider { B.provider self.new.inner ≡ B.provider self.old.inner }
    {
        self.inner.close(c);
        let k = c.0 as usize;
        if k < self.closes.len() {
            self.closes[k] = self.closes[k].saturating_add(1);
        }
    }

    fn order(&mut self, order: &Order) -> Result<(), NoMemory>
        ensures closes { self.new.closes ≡ self.old.closes }
        ensures answer { OrderGives (B.provider self.old.inner) (B.provider self.new.inner) order.now result }
        ensures connections { AllStay (B.connection self.old.inner) (B.connection self.new.inner) }
        ensures numbered { (B.provider self.new.inner).count + (B.provider self.new.inner).room < 2 ^ 32 }
    {
        self.inner.order(order)
    }
}
