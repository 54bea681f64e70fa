// What was made for a paint line is put in. It takes no memory.
ghost use Rattle.std.specs.Prelude.{◌≡◌, ◌≤◌, None};
ghost use Rattle.xp_base.specs.Clocks.{last_moment};
ghost use Rattle.xp_base.specs.Points.{Rectangle};
ghost use Rattle.client_delivery.specs.Attached.{find_source};
ghost use Rattle.attached_client.specs.Changes.{ClientChanges, IsPrepared, IsPendingIn, Pends, Loses, IsResizingIn, Sizes, with_window, with_message};

use crate::change::{Change, Prepared};
use crate::client::{Attached, place_of_window, put_reserved, remove_source};
use client_outbox::Packet;
use rect_regions::Region;
use window_source::{Resizing, WindowSource};
use xp_base::{Wid, keyed_finds, keyed_keeps, keyed_places};

impl Attached {
    /// Carries out a change at the moment for which it was prepared.
    pub fn carry_out(&mut self, change: Change, now: u64, prepared: Prepared)
        requires made { IsPrepared change now self.old prepared }
        requires by_clock { now ≤ last_moment }
        ensures { ClientChanges change now self.old.client self.new.client }
    {
        match prepared {
            Prepared::Nothing => {}
            Prepared::Window(source, packet) => self.begin(source, packet),
            Prepared::Lost(packet) => self.lose(change.wid(), packet),
            Prepared::Message(packet) => self.tell(packet),
            Prepared::Pending(pending) => self.damage(change.wid(), pending, now),
            Prepared::Resized(resizing) => self.resize(change.wid(), resizing, now),
        }
    }

    /// A window begins.
    fn begin(&mut self, source: WindowSource<Region>, packet: Packet<Region>)
        requires room { 1 ≤ self.old.room }
        requires new { find_source self.old.client.seen.sources source.wid ≡ None }
        ensures { self.new.client ≡ with_window source packet self.old.client }
    {
        keyed_keeps::<WindowSource<Region>>();
        self.sources.push_reserved(source);
        put_reserved(&mut self.out, packet);
    }

    /// A window goes.
    fn lose(&mut self, wid: Wid, packet: Packet<Region>)
        requires { 1 ≤ self.old.room }
        ensures { Loses wid packet self.old.client self.new.client }
    {
        keyed_keeps::<WindowSource<Region>>();
        self.out.forget(wid);
        put_reserved(&mut self.out, packet);
        remove_source(&mut self.sources, wid);
    }

    /// A packet comes behind all that wait.
    fn tell(&mut self, packet: Packet<Region>)
        requires { 1 ≤ self.old.room }
        ensures { self.new.client ≡ with_message packet self.old.client }
    {
        put_reserved(&mut self.out, packet);
    }

    /// A window has another size.
    fn resize(&mut self, wid: Wid, resizing: Resizing<Region>, now: u64)
        requires room { 1 ≤ self.old.room }
        requires made { IsResizingIn wid self.old.client resizing }
        requires by_clock { now ≤ last_moment }
        ensures { Sizes wid resizing.wide resizing.high now self.old.client self.new.client }
    {
        keyed_places::<WindowSource<Region>>();
        keyed_keeps::<WindowSource<Region>>();
        keyed_finds::<WindowSource<Region>>();
        if let Some(place) = place_of_window(&self.sources, wid) {
            self.sources[place].resized(resizing, now, &mut self.out);
        }
    }

    /// This is pending of a window.
    fn damage(&mut self, wid: Wid, pending: Region, now: u64)
        requires made { (r : Rectangle) × IsPendingIn wid r self.old.client pending }
        requires by_clock { now ≤ last_moment }
        ensures { Pends wid pending now self.old.client self.new.client }
    {
        keyed_places::<WindowSource<Region>>();
        keyed_keeps::<WindowSource<Region>>();
        if let Some(place) = place_of_window(&self.sources, wid) {
            self.sources[place].put_damaged(pending, now);
        }
    }
}
