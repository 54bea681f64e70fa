// Reliefs of one window's draws, emptied and clipped.
ghost use Rattle.std.specs.Prelude.{◌≡◌, ◌≤◌, IfOk};
ghost use Rattle.client_outbox.specs.Reliefs.{Forgets, AreClips, with_reliefs};

use crate::outbox::Outbox;
use rect_regions::Points;
use std::collections::VecDeque;
use std::marker::Model;
use xp_base::{NoMemory, Rect, Wid};

/// The reliefs of one window's waiting draws, in order, clipped to a size.
#[derive(Drop)]
pub struct Clipped<R: Points> {
    pub reliefs: Vec<R>,
}

impl<R: Points> Model for Clipped<R> {
    ghost use Rattle.client_outbox.specs.Reliefs.{Clips};

    ghost Value = { Clips R };

    ghost view = { λ c. record { reliefs = c.reliefs.items } };
}

impl<R: Points> Outbox<R> {
    /// Empties the reliefs of a window's waiting draws.
    pub fn forget(&mut self, wid: Wid)
        ensures reliefs { Forgets R.has wid self.old.waiting.packets self.new.waiting.packets }
        ensures taken { self.new.waiting.taken ≡ self.old.waiting.taken }
        ensures room { self.new.room ≡ self.old.room }
    {
        for i in 0..self.packets.len() {
            self.packets[i].forget(wid);
        }
    }

    /// The reliefs of a window's waiting draws, in order, each clipped to `w` by `h` pixels.
    pub fn clipped(&self, wid: Wid, w: u32, h: u32) -> Result<Clipped<R>, NoMemory>
        requires some_columns { 1 ≤ w }
        requires some_rows { 1 ≤ h }
        requires wide { w ≤ 4096 }
        requires high { h ≤ 4096 }
        ensures { IfOk result (AreClips R.has wid w h self.now.waiting.packets) }
    {
        let size = Rect { x: 0, y: 0, w, h };
        let mut reliefs = Vec::new(*self.packets.allocator());
        for i in 0..self.packets.len() {
            let packet = &self.packets[i];
            if packet.draws_in(wid) {
                reliefs.push(packet.relief.part(size)?)?;
            }
        }
        Ok(Clipped { reliefs })
    }

    /// Puts in the reliefs that `clipped` made of this outbox and window as they stand. It takes no memory.
    pub fn put_clipped(&mut self, wid: Wid, c: Clipped<R>)
        ensures packets { self.new.waiting.packets ≡ with_reliefs wid self.old.waiting.packets c.reliefs }
        ensures taken { self.new.waiting.taken ≡ self.old.waiting.taken }
        ensures room { self.new.room ≡ self.old.room }
    {
        let Clipped { reliefs } = c;
        let mut reliefs = VecDeque::from_vec(reliefs);
        for i in 0..self.packets.len() {
            self.packets[i].put_relief(wid, &mut reliefs);
        }
    }
}
