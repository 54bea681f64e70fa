// Packets that are no draws.
ghost use Rattle.std.specs.Prelude.{◌≡◌, ◌<◌, [], IfOk, vec_len};
ghost use Rattle.packet_kinds.specs.Fields.{HasFields, IsPlain, drawn_size};
ghost use Rattle.client_outbox.specs.Outgoing.{other_packet};
ghost use Rattle.attached_client.specs.Client.{plain_packet, hello_packet, announced_at};
ghost use Rattle.attached_client.specs.Changes.{lost_packet, moved_packet, raised_packet};

use client_outbox::Packet;
use hello_caps::{Caps, server_hello, the_server_spells};
use packet_frames::write_packet;
use packet_kinds::{
    ToClient, a_message_has_bytes, a_plain_message_has_a_small_value,
    a_plain_message_may_be_written, to_bytes, what_is_written_is_read_as_the_same_message,
};
use rect_regions::{Points, Region, equal_by_points};
use std::alloc::Global;
use window_model::Geometry;
use xp_base::{NoMemory, Wid};

/// A packet that relieves nothing.
fn bare_packet(alloc: Global, bytes: Vec<u8>) -> Packet<Region>
    requires { 0 < vec_len bytes }
    ensures { result ≡ other_packet bytes.items [] }
{
    equal_by_points();
    let relief = Region::new(alloc);
    // For the proof: the region is the row-band list of its points.
    let _pieces = relief.pieces();
    Packet {
        wid: None,
        bytes,
        relief,
        draw: None,
    }
}

/// The packet of a message that is no draw and has no capabilities.
pub(crate) fn plain_packet_of(alloc: Global, message: &ToClient) -> Result<Packet<Region>, NoMemory>
    requires plain { IsPlain message.now }
    requires fields { HasFields message.now }
    requires small { drawn_size message.now ≡ 0 }
    ensures { IfOk result (λ p. p ≡ plain_packet message.now) }
{
    a_plain_message_may_be_written();
    a_plain_message_has_a_small_value();
    a_message_has_bytes();
    let bytes = to_bytes(alloc, message)?;
    Ok(bare_packet(alloc, bytes))
}

/// The packet of the server's hello to a client with these capabilities.
pub(crate) fn hello_packet_for(alloc: Global, caps: &Caps) -> Result<Packet<Region>, NoMemory>
    ensures { IfOk result (λ p. p ≡ hello_packet caps.now) }
{
    the_server_spells();
    what_is_written_is_read_as_the_same_message();
    a_message_has_bytes();
    let hello = server_hello(alloc, caps)?;
    let bytes = write_packet(alloc, &hello, None)?;
    Ok(bare_packet(alloc, bytes))
}

/// The packet of a window's announcement.
pub(crate) fn announcement(alloc: Global, g: Geometry) -> Result<Packet<Region>, NoMemory>
    ensures { IfOk result (λ p. p ≡ announced_at g) }
{
    let _area = g.area();
    let message = ToClient::NewWindow {
        wid: g.wid,
        x: g.x,
        y: g.y,
        w: g.w,
        h: g.h,
    };
    plain_packet_of(alloc, &message)
}

/// The packet that a window goes.
pub(crate) fn lost_packet(alloc: Global, wid: Wid) -> Result<Packet<Region>, NoMemory>
    ensures { IfOk result (λ p. p ≡ lost_packet wid) }
{
    // For the proof: the number is one of a window.
    let _number = wid.get();
    plain_packet_of(alloc, &ToClient::LostWindow { wid })
}

/// The packet that a window has another place.
pub(crate) fn moved_packet(alloc: Global, g: Geometry) -> Result<Packet<Region>, NoMemory>
    ensures { IfOk result (λ p. p ≡ moved_packet g) }
{
    let _area = g.area();
    let message = ToClient::WindowMoveResize {
        wid: g.wid,
        x: g.x,
        y: g.y,
        w: g.w,
        h: g.h,
    };
    plain_packet_of(alloc, &message)
}

/// The packet that a window is on top.
pub(crate) fn raised_packet(alloc: Global, wid: Wid) -> Result<Packet<Region>, NoMemory>
    ensures { IfOk result (λ p. p ≡ raised_packet wid) }
{
    // For the proof: the number is one of a window.
    let _number = wid.get();
    plain_packet_of(alloc, &ToClient::RaiseWindow { wid })
}
