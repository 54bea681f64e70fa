// What a client says: an exact client's hello, and then maps of the script's window. All else is not
// built yet.
ghost use Rattle.std.specs.Prelude.{◌≡◌, ◌≤◌, ◌<◌, ◌*◌, ◌++◌, ◌∷◌, ℕ, List, OnOk, OnErr, Err, None, IfOk, IfSome, length, drop, map, nat_lt, if◌then◌else◌};
ghost use Rattle.client_connection.specs.Clients.{ClientSeen, plain, fresh_source, structure_packet, mapped_source};
ghost use Rattle.client_connection.specs.Hearing.{script_window as opened_window, IsPartOf, IsNeither, Repeats, begun};
ghost use Rattle.client_connection.specs.Wire.{server_hello, geometry_of, new_window};

use crate::announce::make_announcement;
use crate::client::Client;
use crate::ends::Trouble;
use crate::geometry::Geometry;
use crate::messages::server_hello_packet;
use crate::packet::Packet;
use crate::source::Source;
use crate::wire::map_window_packet;
use first_script::Paint;
use link_bay::EXACT_HELLO;
use std::alloc::Global;
use window_model::Desk;
use xp_base::{Bytes, NoMemory, Wid};

/// How many maps a client may say.
const MOST_MAPS: u32 = 1000;

/// How the bytes that a client said begin.
#[derive(Clone, Copy, Debug, PartialEq, Eq)]
enum Front {
    /// With the whole packet.
    Whole,
    /// They are a part of it.
    Part,
    /// Otherwise.
    Other,
}

fn front_of(bytes: &[u8], packet: &[u8]) -> Front
    ensures whole { result ≡ Front.Whole → bytes.now ≡ packet.now ++ drop (length packet.now) bytes.now }
    ensures long { result ≡ Front.Whole → length packet.now ≤ length bytes.now }
    ensures part { result ≡ Front.Part → IsPartOf bytes.now packet.now }
    ensures other { result ≡ Front.Other → IsNeither bytes.now packet.now }
{
    if bytes.len() >= packet.len() {
        if bytes[..packet.len()] == packet[..] {
            return Front::Whole;
        }
        return Front::Other;
    }
    if packet[..bytes.len()] == bytes[..] {
        return Front::Part;
    }
    Front::Other
}

/// How often the bytes are the packet, where they are packets and then a part of one.
#[tactic(auto, using(crate::proofs::Hearings::count_within, crate::proofs::Hearings::packets_more, crate::proofs::Hearings::repeats_here, crate::proofs::Hearings::repeats_nowhere))]
fn count_packets(bytes: &[u8], packet: &[u8]) -> Option<usize>
    requires { 1 ≤ length packet.now }
    ensures some { IfSome result (λ count. Repeats packet.now count (drop (count * length packet.now) bytes.now) bytes.now) }
    ensures none { result ≡ None → (count : ℕ) → (rest : List ℕ) → Repeats packet.now count rest bytes.now → ⊥ }
{
    let mut count = 0;
    let mut rest = bytes;
    'packets: loop {
        match front_of(rest, packet) {
            Front::Whole => {
                rest = &rest[packet.len()..];
                count += 1;
            }
            Front::Part => return Some(count),
            Front::Other => return None,
        }
    }
}

/// How many maps have begun and are not whole, where this is left behind whole ones.
fn begun_maps(rest: &[u8]) -> usize
    ensures { result ≡ begun rest.now }
{
    if rest.is_empty() { 0 } else { 1 }
}

/// The window that the script opens.
fn script_window(paints: &[Paint]) -> Option<Geometry>
    ensures { result ≡ opened_window paints.now }
{
    for paint in paints {
        if let Paint::Open { wid, x, y, w, h } = *paint {
            return Some(Geometry::new(wid, x, y, w, h));
        }
    }
    None
}

impl Client {
    ghost use Rattle.client_connection.specs.Clients.{attached};
    ghost use Rattle.client_connection.specs.Hearing.{Hears, HearsMaps, IsUnbuilt};

    /// Takes what the client said, and handles each packet that is whole. After trouble nothing is promised
    /// of the client but what its type keeps: it is to be dropped.
    #[tactic(auto, using(crate::proofs::Heard::hears_on, crate::proofs::Heard::unhears_on, crate::proofs::Heard::hears_first, crate::proofs::Heard::unhears_first, crate::proofs::Heard::unhears_neither))]
    pub fn hear(
        &mut self,
        alloc: Global,
        bytes: &[u8],
        paints: &[Paint],
        desk: &Desk,
    ) -> Result<(), Trouble>
        ensures ok { OnOk result (Hears paints.now desk.now (plain self.old) bytes.now (plain self.new)) }
        ensures unbuilt { result ≡ Err Trouble.Unbuilt → IsUnbuilt paints.now desk.now (plain self.old) bytes.now }
    {
        let Ok(()) = self.unread.extend_from_slice(bytes) else {
            return Err(Trouble::NoMemory);
        };
        if self.greeted {
            return self.hear_maps(alloc, paints);
        }
        match front_of(self.unread.as_slice(), EXACT_HELLO) {
            Front::Whole => {}
            Front::Part => return Ok(()),
            Front::Other => return Err(Trouble::Unbuilt),
        }
        let Ok(()) = self.attach(alloc, desk) else {
            return Err(Trouble::NoMemory);
        };
        self.hear_maps(alloc, paints)
    }

    /// The hello was accepted: the server's hello and each window from bottom to top wait to be written.
    fn attach(&mut self, alloc: Global, desk: &Desk) -> Result<(), NoMemory>
        requires { 39 ≤ length self.old.unread }
        ensures ok { OnOk result (plain self.new ≡ record (attached desk.now (plain self.old)) { unread = drop 39 self.old.unread }) }
        ensures err { OnErr result (plain self.new ≡ plain self.old) }
    {
        let (sources, packets) = announce_desk(alloc, desk)?;
        self.unread.drain(..EXACT_HELLO.len());
        self.sources = sources;
        self.packets = packets;
        self.taken = 0;
        self.greeted = true;
        Ok(())
    }

    /// Handles the maps that the bytes not handled yet are.
    fn hear_maps(&mut self, alloc: Global, paints: &[Paint]) -> Result<(), Trouble>
        ensures ok { OnOk result (HearsMaps paints.now (plain self.old) self.old.unread (plain self.new)) }
        ensures unbuilt { result ≡ Err Trouble.Unbuilt → (c : ClientSeen) → HearsMaps paints.now (plain self.old) self.old.unread c → ⊥ }
        ensures err { OnErr result (plain self.new ≡ plain self.old) }
    {
        let Some(geometry) = script_window(paints) else {
            return if self.unread.is_empty() {
                Ok(())
            } else {
                Err(Trouble::Unbuilt)
            };
        };
        let Ok(packet) = map_window_packet(alloc, &geometry) else {
            return Err(Trouble::NoMemory);
        };
        let Some(count) = count_packets(self.unread.as_slice(), packet.as_slice()) else {
            return Err(Trouble::Unbuilt);
        };
        let handled = count * packet.len();
        let begun = begun_maps(&self.unread.as_slice()[handled..]);
        if count + begun > (MOST_MAPS - self.maps) as usize {
            return Err(Trouble::Unbuilt);
        }
        self.maps += count as u32;
        self.unread.drain(..handled);
        map_sources(&mut self.sources, geometry.wid, count);
        Ok(())
    }
}

/// What a new client gets: the server's hello, and each window's source and announcement.
fn announce_desk(alloc: Global, desk: &Desk) -> Result<(Vec<Source>, Vec<Packet>), NoMemory>
    ensures sources { IfOk result (λ made. made.0.items ≡ map (λ w. fresh_source (geometry_of w)) desk.now) }
    ensures packets { IfOk result (λ made. made.1.items ≡ structure_packet server_hello ∷ map (λ w. structure_packet (new_window (geometry_of w))) desk.now) }
{
    let mut sources = Vec::new(alloc);
    let mut packets = Vec::new(alloc);
    packets.push(Packet {
        bytes: Bytes::new(server_hello_packet(alloc)?),
        draw: None,
    })?;
    for window in desk.as_slice() {
        let _area = window.area();
        let announcement = make_announcement(alloc, &Geometry::of(window))?;
        sources.push(announcement.source)?;
        packets.push(announcement.packet)?;
    }
    Ok((sources, packets))
}

/// The client mapped the window so often.
fn map_sources(sources: &mut Vec<Source>, wid: Wid, count: usize)
    ensures { sources.new.items ≡ (if nat_lt 0 count then map (mapped_source wid) sources.old.items else sources.old.items) }
{
    if count == 0 {
        return;
    }
    for source in sources.iter_mut() {
        source.map(wid);
    }
}
