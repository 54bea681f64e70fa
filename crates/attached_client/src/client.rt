// A client whose hello was accepted.
ghost use Rattle.std.specs.Prelude.{◌≡◌, ◌<◌, ◌≤◌, IfOk, IfSome, OnOk, OnErr, length};
ghost use Rattle.xp_base.specs.Clocks.{last_moment};
ghost use Rattle.xp_base.specs.Keyed.{HasDistinctKeys, keyed_remove};
ghost use Rattle.client_outbox.specs.Outgoing.{with_packet};
ghost use Rattle.client_delivery.specs.Attached.{source_key};
ghost use Rattle.attached_client.specs.Client.{attached_at};
ghost use Rattle.attached_client.specs.Acting.{place_with, place_named};

use crate::packets::{announcement, hello_packet_for};
use client_outbox::{Outbox, Packet};
use hello_caps::Caps;
use rect_regions::Region;
use std::alloc::Global;
use std::marker::Model;
use window_model::{Desk, Geometry};
use window_source::WindowSource;
use xp_base::{Conn, NoMemory, Wid, keyed_places};

/// What a session keeps of a client whose hello was accepted.
#[derive(Drop)]
pub struct Attached {
    pub(crate) conn: Conn,
    pub(crate) caps: Caps,
    pub(crate) sources: Vec<WindowSource<Region>>,
    pub(crate) out: Outbox<Region>,
}

impl Model for Attached {
    ghost use Rattle.std.specs.Prelude.{◌-◌, min, vec_capacity, vec_len};
    ghost use Rattle.xp_base.specs.Keyed.{HasDistinctKeys};
    ghost use Rattle.client_delivery.specs.Attached.{source_key};
    ghost use Rattle.attached_client.specs.Client.{Attachment};

    ghost Value = { Attachment };

    ghost view = { λ a. record {
      client = record {
        conn = a.conn.0;
        caps = a.caps;
        seen = record { sources = a.sources.items; out = a.out.waiting };
      };
      room = min (vec_capacity a.sources - vec_len a.sources) a.out.room;
    } };

    ghost invariant = { λ a. HasDistinctKeys source_key a.sources.items };
}

impl Attached {
    /// Of a client whose hello was just accepted: the server's hello and each window's announcement wait.
    pub fn new(
        alloc: Global,
        conn: Conn,
        caps: Caps,
        desk: &Desk,
        now: u64,
    ) -> Result<Attached, NoMemory>
        requires { now ≤ last_moment }
        ensures { IfOk result (λ a. a.client ≡ attached_at desk.now conn.0 now caps) }
    {
        let _windows = desk.len();
        let mut out = Outbox::new(alloc);
        put(&mut out, hello_packet_for(alloc, &caps)?)?;
        let mut sources = Vec::new(alloc);
        for window in desk.as_slice() {
            let g = Geometry::of(window);
            sources.push(WindowSource::new(alloc, conn, g.wid, g.w, g.h, now)?)?;
            put(&mut out, announcement(alloc, g)?)?;
        }
        Ok(Attached {
            conn,
            caps,
            sources,
            out,
        })
    }

    /// What its hello said of it.
    pub fn caps(&self) -> &Caps
        ensures { result.now ≡ self.now.client.caps }
    {
        &self.caps
    }
}

/// Puts a packet behind all others.
pub(crate) fn put(out: &mut Outbox<Region>, packet: Packet<Region>) -> Result<(), NoMemory>
    ensures ok { OnOk result (out.new.waiting ≡ with_packet out.old.waiting packet) }
    ensures same { OnErr result (out.new.waiting ≡ out.old.waiting) }
{
    match out.put(packet) {
        Ok(()) => Ok(()),
        Err(_) => Err(NoMemory),
    }
}

/// Puts a packet behind all others, for which there is room.
pub(crate) fn put_reserved(out: &mut Outbox<Region>, packet: Packet<Region>)
    requires { 0 < out.old.room }
    ensures { out.new.waiting ≡ with_packet out.old.waiting packet }
{
    if out.put(packet).is_err() {
        unreachable!();
    }
}

/// Takes the source of the window away, where there is one.
pub(crate) fn remove_source(sources: &mut Vec<WindowSource<Region>>, wid: Wid)
    requires { HasDistinctKeys source_key sources.old.items }
    ensures { sources.new.items ≡ keyed_remove source_key sources.old.items wid }
{
    keyed_places::<WindowSource<Region>>();
    if let Some(place) = place_of_window(sources, wid) {
        sources.remove(place);
    }
}

/// The place of the window's source.
pub(crate) fn place_of_window(sources: &[WindowSource<Region>], wid: Wid) -> Option<usize>
    ensures place { result ≡ place_with wid sources.now }
    ensures within { IfSome result (λ place. place < length sources.now) }
{
    sources
        .iter()
        .position(|source| source.wid().get() == wid.get())
}

/// The place of the source of a window by the number that a client says, which may be any.
pub(crate) fn source_place(sources: &[WindowSource<Region>], number: i64) -> Option<usize>
    ensures place { result ≡ place_named number sources.now }
    ensures within { IfSome result (λ place. place < length sources.now) }
{
    sources
        .iter()
        .position(|source| source.wid().get() as i64 == number)
}
