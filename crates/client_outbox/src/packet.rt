// One packet that waits to be written.
ghost use Rattle.std.specs.Prelude.{◌≡◌, ◌<◌, vec_len};

use crate::draw::Draw;
use rect_regions::Points;
use std::alloc::Global;
use std::collections::VecDeque;
use std::marker::Model;
use xp_base::Wid;

/// A packet's bytes, of which there are some. A draw also has its window, what draw it is, and the
/// points of the window that it relieves: they are owed until its last byte was taken.
#[derive(Drop)]
pub struct Packet<R: Points> {
    pub wid: Option<Wid>,
    pub bytes: Vec<u8>,
    pub relief: R,
    pub draw: Option<Draw>,
}

impl<R: Points> Model for Packet<R> {
    ghost use Rattle.client_outbox.specs.Outgoing.{WaitingPacket, IsPacket};

    ghost Value = { WaitingPacket R };

    ghost view = { λ p. record { wid = p.wid; bytes = p.bytes.items; relief = p.relief; draw = p.draw } };

    ghost invariant = { λ p. IsPacket (record {
      wid = p.wid;
      bytes = p.bytes.items;
      relief = p.relief;
      draw = p.draw;
    }) };
}

impl<R: Points> Packet<R> {
    ghost use Rattle.rect_regions.specs.PointSets.{HasNone};
    ghost use Rattle.client_outbox.specs.Outgoing.{draw_packet, other_packet};
    ghost use Rattle.client_outbox.specs.Reliefs.{draws_in, Emptied, PacketChanges, put_in, left_by};

    /// A draw.
    pub fn of_draw(wid: Wid, draw: Draw, bytes: Vec<u8>, relief: R) -> Packet<R>
        requires some { 0 < vec_len bytes }
        ensures { result ≡ draw_packet wid draw bytes.items relief }
    {
        Packet {
            wid: Some(wid),
            bytes,
            relief,
            draw: Some(draw),
        }
    }

    /// A packet that is no draw. It relieves nothing, and takes no memory.
    pub fn of_bytes(alloc: Global, bytes: Vec<u8>) -> Packet<R>
        requires some { 0 < vec_len bytes }
        ensures kept { result ≡ other_packet bytes.items result.relief }
        ensures relief { HasNone (R.has result.relief) }
    {
        Packet {
            wid: None,
            bytes,
            relief: R::new(alloc),
            draw: None,
        }
    }

    // Whether it is a draw in this window.
    pub(crate) fn draws_in(&self, wid: Wid) -> bool
        ensures { result ≡ draws_in wid self.now }
    {
        self.wid == Some(wid)
    }

    // Its relief becomes empty, where it is a draw in this window.
    pub(crate) fn forget(&mut self, wid: Wid)
        ensures { PacketChanges (Emptied R.has) wid self.old self.new }
    {
        if self.draws_in(wid) {
            self.relief.clear();
        }
    }

    // Its relief becomes the next of these, where it is a draw in this window.
    pub(crate) fn put_relief(&mut self, wid: Wid, reliefs: &mut VecDeque<R>)
        ensures packet { self.new ≡ put_in wid self.old reliefs.old.items }
        ensures left { reliefs.new.items ≡ left_by wid self.old reliefs.old.items }
    {
        if self.draws_in(wid) {
            if let Some(relief) = reliefs.pop_front() {
                self.relief = relief;
            }
        }
    }
}
