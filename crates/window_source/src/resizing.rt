// A window gets another size: what that needs is made before anything changes.
ghost use Rattle.std.specs.Prelude.{◌≡◌, ◌+◌, ◌≤◌, IfOk};
ghost use Rattle.xp_base.specs.Clocks.{last_moment};
ghost use Rattle.window_model.specs.Desktop.{IsSide};
ghost use Rattle.delivery_model.specs.Events.{resized};
ghost use Rattle.window_source.specs.Source.{after};
ghost use Rattle.window_source.specs.Resized.{IsOfSize, SaysSize, IsResizing, ResizesOutbox};

use crate::source::WindowSource;
use client_outbox::{Clipped, Outbox, Packet, clipped_reliefs_lie_inside};
use damage_batch::damage_is_pending;
use delivery_model::points_are_their_tests;
use lossy_refresh::a_resize_keeps_what_is_in_it;
use packet_kinds::{
    ToClient, a_message_has_bytes, a_plain_message_has_a_small_value,
    a_plain_message_may_be_written, to_bytes,
};
use rect_regions::Points;
use resize_cancel::{Carried, a_resize_carries_over, carried, put_carried};
use std::alloc::Global;
use std::marker::Model;
use xp_base::{NoMemory, Wid};

/// What the resize of one window of one client needs: the new size in pixels, what is pending and lossy in it, the
/// reliefs of the window's waiting draws clipped to it, and the packet that tells the client.
#[derive(Drop)]
pub struct Resizing<R: Points> {
    pub w: u32,
    pub h: u32,
    pub carried: Carried<R>,
    pub clipped: Clipped<R>,
    pub packet: Packet<R>,
}

impl<R: Points> Model for Resizing<R> {
    ghost use Rattle.window_model.specs.Desktop.{IsSide};
    ghost use Rattle.window_source.specs.Resized.{ResizingSeen};

    ghost Value = { ResizingSeen R };

    ghost view = { λ z. record { wide = z.w; high = z.h; carried = z.carried; clipped = z.clipped; packet = z.packet } };

    ghost invariant = { λ z. IsSide z.w × IsSide z.h };
}

impl<R: Points> WindowSource<R> {
    /// Makes what a resize to `w` by `h` pixels needs.
    pub fn resizing(&self, w: u32, h: u32, out: &Outbox<R>) -> Result<Resizing<R>, NoMemory>
        requires wide { IsSide w }
        requires high { IsSide h }
        ensures size { IfOk result (IsOfSize w h) }
        ensures made { IfOk result (IsResizing R.has self.now out.now.waiting.packets) }
    {
        points_are_their_tests();
        a_resize_carries_over::<R>();
        a_resize_keeps_what_is_in_it::<R>();
        let carried = carried(
            self.alloc,
            &self.jobs,
            &self.batch,
            &self.lossy,
            self.w,
            self.h,
            w,
            h,
        )?;
        let clipped = out.clipped(self.wid, w, h)?;
        let packet = size_packet(self.alloc, self.wid, w, h)?;
        Ok(Resizing {
            w,
            h,
            carried,
            clipped,
            packet,
        })
    }

    /// Puts in what `resizing` made of this source and this outbox as they stand. All jobs in hand are cancelled. It
    /// takes no memory.
    pub fn resized(&mut self, z: Resizing<R>, now: u64, out: &mut Outbox<R>)
        requires made { IsResizing R.has self.old out.old.waiting.packets z }
        requires room { 1 ≤ out.old.room }
        requires by_clock { now ≤ last_moment }
        ensures source { self.new ≡ after (resized z.wide z.high now) self.old }
        ensures outbox { ResizesOutbox R.has self.old.wid z.wide z.high out.old.waiting out.new.waiting }
        ensures room { out.old.room ≤ out.new.room + 1 }
    {
        points_are_their_tests();
        damage_is_pending::<R>();
        clipped_reliefs_lie_inside::<R>();
        let Resizing {
            w,
            h,
            carried,
            clipped,
            packet,
        } = z;
        put_carried(
            &mut self.jobs,
            &mut self.batch,
            &mut self.lossy,
            carried,
            now,
        );
        self.w = w;
        self.h = h;
        out.put_clipped(self.wid, clipped);
        match out.put(packet) {
            Ok(()) => {}
            Err(_) => unreachable!(),
        }
    }
}

/// The packet that tells a client a window's new size.
fn size_packet<R: Points>(alloc: Global, wid: Wid, w: u32, h: u32) -> Result<Packet<R>, NoMemory>
    requires wide { IsSide w }
    requires high { IsSide h }
    ensures { IfOk result (SaysSize R.has wid w h) }
{
    a_plain_message_may_be_written();
    a_plain_message_has_a_small_value();
    a_message_has_bytes();
    let _number = wid.get();
    let message = ToClient::WindowResized { wid, w, h };
    let bytes = to_bytes(alloc, &message)?;
    Ok(Packet::of_bytes(alloc, bytes))
}
