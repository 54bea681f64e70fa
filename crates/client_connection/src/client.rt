// A connection that is open.
ghost use Rattle.std.specs.Prelude.{◌≡◌, ◌==◌, ◌<◌, map, length, position, IfSome};
ghost use Rattle.client_connection.specs.Clients.{damaged_source};

use crate::packet::{Announcement, Packet};
use crate::source::Source;
use std::alloc::Global;
use std::marker::Model;
use xp_base::{Rect, Wid};

/// What a session keeps of a connection that is open: the bytes read that are no whole packet yet, the
/// sources of its windows in the desktop's order, and the packets that wait to be written.
#[derive(Debug, Drop)]
pub struct Client {
    pub(crate) greeted: bool,
    pub(crate) maps: u32,
    pub(crate) unread: Vec<u8>,
    pub(crate) sources: Vec<Source>,
    pub(crate) packets: Vec<Packet>,
    /// How many bytes of the first packet were taken.
    pub(crate) taken: usize,
    /// The announcement that a paint line prepared.
    pub(crate) next: Option<Announcement>,
}

impl Model for Client {
    ghost use Rattle.std.specs.Prelude.{◌-◌, min, vec_capacity, vec_len};
    ghost use Rattle.client_connection.specs.Clients.{ClientSeen, IsClient};

    ghost Value = { ClientSeen };

    ghost view = { λ c. record {
      greeted = c.greeted;
      maps = c.maps;
      unread = c.unread.items;
      sources = c.sources.items;
      packets = c.packets.items;
      taken = c.taken;
      room = min (vec_capacity c.sources - vec_len c.sources) (vec_capacity c.packets - vec_len c.packets);
      next = c.next;
    } };

    ghost invariant = { λ c. IsClient c.greeted c.maps c.sources.items c.packets.items c.taken };
}

impl Client {
    ghost use Rattle.client_connection.specs.Clients.{plain, fresh_client, damaged};

    /// A connection that was just accepted.
    pub fn new(alloc: Global) -> Client
        ensures { plain result ≡ fresh_client }
    {
        Client {
            greeted: false,
            maps: 0,
            unread: Vec::new(alloc),
            sources: Vec::new(alloc),
            packets: Vec::new(alloc),
            taken: 0,
            next: None,
        }
    }

    /// Whether its hello was accepted.
    pub fn is_greeted(&self) -> bool
        ensures { result ≡ self.now.greeted }
    {
        self.greeted
    }

    /// A rectangle of the window was painted.
    pub fn damage(&mut self, wid: Wid, r: Rect)
        ensures { plain self.new ≡ damaged wid r (plain self.old) }
    {
        damage_sources(&mut self.sources, wid, r);
    }
}

fn damage_sources(sources: &mut Vec<Source>, wid: Wid, r: Rect)
    ensures { sources.new.items ≡ map (damaged_source wid r) sources.old.items }
{
    for source in sources.iter_mut() {
        source.damage(wid, r);
    }
}

/// The place of the window's source.
pub(crate) fn source_place(sources: &[Source], wid: Wid) -> Option<usize>
    ensures place { result ≡ position (λ s. s.wid == wid) sources.now }
    ensures within { IfSome result (λ place. place < length sources.now) }
{
    sources
        .iter()
        .position(|source| source.wid.get() == wid.get())
}
