// What a paint line needs of a client is made first: it may fail for memory.
ghost use Rattle.std.specs.Prelude.{◌≡◌, ◌≤◌, IfOk, OnOk};
ghost use Rattle.std.specs.Option.{option_copied};
ghost use Rattle.xp_base.specs.Clocks.{last_moment};
ghost use Rattle.client_delivery.specs.Attached.{find_source};
ghost use Rattle.attached_client.specs.Changes.{Fits, FitsSource, IsMade, IsMadeOf, IsMadeWithout, IsPrepared};

use crate::change::{Change, Prepared};
use crate::client::{Attached, place_of_window};
use crate::packets::{announcement, lost_packet, moved_packet, raised_packet};
use client_outbox::Outbox;
use rect_regions::Region;
use std::alloc::Global;
use window_source::WindowSource;
use xp_base::{Conn, NoMemory, Wid, keyed_places};

impl Attached {
    /// Makes what a change at this moment, in milliseconds, needs of the client, and room for a window and a packet
    /// more.
    pub fn preparing(&mut self, change: Change, now: u64) -> Result<Prepared, NoMemory>
        requires fits { Fits change self.old.client.seen }
        requires by_clock { now ≤ last_moment }
        ensures same { self.new.client ≡ self.old.client }
        ensures ready { IfOk result (IsPrepared change now self.new) }
    {
        self.make_room()?;
        self.made(change, now)
    }

    fn make_room(&mut self) -> Result<(), NoMemory>
        ensures same { self.new.client ≡ self.old.client }
        ensures room { OnOk result (1 ≤ self.new.room) }
    {
        self.sources.reserve(1)?;
        self.out.reserve(1)?;
        Ok(())
    }

    fn made(&self, change: Change, now: u64) -> Result<Prepared, NoMemory>
        requires fits { Fits change self.now.client.seen }
        requires by_clock { now ≤ last_moment }
        ensures { IfOk result (IsMade change now self.now.client) }
    {
        let alloc = *self.sources.allocator();
        match self.source(change.wid()) {
            Some(source) => made_of(alloc, source, &self.out, change),
            None => made_without(alloc, self.conn, change, now),
        }
    }

    /// The source of the window with this number.
    fn source(&self, wid: Wid) -> Option<&WindowSource<Region>>
        ensures { option_copied result ≡ find_source self.now.client.seen.sources wid }
    {
        keyed_places::<WindowSource<Region>>();
        match place_of_window(&self.sources, wid) {
            Some(place) => Some(&self.sources[place]),
            None => None,
        }
    }
}

/// For a change of a window that the client has.
fn made_of(
    alloc: Global,
    source: &WindowSource<Region>,
    out: &Outbox<Region>,
    change: Change,
) -> Result<Prepared, NoMemory>
    requires { FitsSource change source.now }
    ensures { IfOk result (IsMadeOf source.now out.now.waiting.packets change) }
{
    match change {
        Change::Opened(_) => Ok(Prepared::Nothing),
        Change::Closed(wid) => Ok(Prepared::Lost(lost_packet(alloc, wid)?)),
        Change::Moved(g) => Ok(Prepared::Message(moved_packet(alloc, g)?)),
        Change::Raised(wid) => Ok(Prepared::Message(raised_packet(alloc, wid)?)),
        Change::Damaged(_, r) => Ok(Prepared::Pending(source.damaged(r)?)),
        Change::Resized(g) => {
            // For the proof: what every geometry keeps.
            let _area = g.area();
            Ok(Prepared::Resized(source.resizing(g.w, g.h, out)?))
        }
    }
}

/// For a change of a window that the client has not.
fn made_without(alloc: Global, conn: Conn, change: Change, now: u64) -> Result<Prepared, NoMemory>
    requires { now ≤ last_moment }
    ensures { IfOk result (IsMadeWithout change now conn.0) }
{
    match change {
        Change::Opened(g) => {
            // For the proof: what every geometry keeps.
            let _area = g.area();
            let source = WindowSource::new(alloc, conn, g.wid, g.w, g.h, now)?;
            Ok(Prepared::Window(source, announcement(alloc, g)?))
        }
        Change::Closed(_)
        | Change::Moved(_)
        | Change::Raised(_)
        | Change::Damaged(_, _)
        | Change::Resized(_) => Ok(Prepared::Nothing),
    }
}
