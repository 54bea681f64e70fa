// Reading packets from a client.
ghost use Rattle.std.specs.Prelude.{◌≡◌, Ok, drop, slice_get};
ghost use Rattle.packet_kinds.specs.Answers.{Answers};
ghost use Rattle.packet_kinds.specs.FromShapes.{from_client, from_client_named, map_window_in, unmap_window_in, damage_sequence_in, buffer_refresh_in, ping_in};
ghost use Rattle.packet_kinds.specs.declared.from_client.FromClient.TheVariants as C;

use crate::fault::KindFault;
use crate::from_client::FromClient;
use crate::items_in::{bytes_at, copy_at, copy_behind, int_at, items_of};
use bencode_values::Value;
use std::alloc::Global;

/// What a value says as a packet of a client: the packet, or the first item that is missing or is no integer. Want of
/// memory comes only where it says a packet.
#[tactic(auto, unfolding(crate::specs::FromShapes::from_client))]
pub fn read_from_client(alloc: Global, value: &Value) -> Result<FromClient, KindFault>
    ensures { Answers (from_client value.now) result }
{
    let items = items_of(value).ok_or(KindFault::Shape(0))?.as_slice();
    let name = bytes_at(items, 0).ok_or(KindFault::Shape(0))?.as_slice();
    from_client_named(alloc, name, items)
}

/// By its name.
fn from_client_named(alloc: Global, name: &[u8], items: &[Value]) -> Result<FromClient, KindFault>
    ensures { Answers (from_client_named name.now items.now) result }
{
    if name == b"hello".as_slice() {
        return hello_in(alloc, items);
    }
    if name == b"map-window".as_slice() {
        return map_window_in(alloc, items);
    }
    if name == b"unmap-window".as_slice() {
        return unmap_window_in(alloc, items);
    }
    if name == b"damage-sequence".as_slice() {
        return damage_sequence_in(alloc, items);
    }
    if name == b"buffer-refresh".as_slice() {
        return buffer_refresh_in(alloc, items);
    }
    if name == b"ping".as_slice() {
        return ping_in(alloc, items);
    }
    if name == b"disconnect".as_slice() {
        return disconnect_in(alloc, items);
    }
    Ok(FromClient::Other)
}

fn hello_in(alloc: Global, items: &[Value]) -> Result<FromClient, KindFault>
    ensures { Answers (Ok (C.Hello (slice_get items.now 1))) result }
{
    let caps = copy_at(alloc, items, 1)?;
    Ok(FromClient::Hello { caps })
}

fn map_window_in(alloc: Global, items: &[Value]) -> Result<FromClient, KindFault>
    ensures { Answers (map_window_in items.now) result }
{
    let wid = int_at(items, 1).ok_or(KindFault::Shape(1))?;
    let further = copy_behind(alloc, items, 2)?;
    Ok(FromClient::MapWindow { wid, further })
}

fn unmap_window_in(alloc: Global, items: &[Value]) -> Result<FromClient, KindFault>
    ensures { Answers (unmap_window_in items.now) result }
{
    let wid = int_at(items, 1).ok_or(KindFault::Shape(1))?;
    let further = copy_behind(alloc, items, 2)?;
    Ok(FromClient::UnmapWindow { wid, further })
}

fn damage_sequence_in(alloc: Global, items: &[Value]) -> Result<FromClient, KindFault>
    ensures { Answers (damage_sequence_in items.now) result }
{
    let packet_sequence = int_at(items, 1).ok_or(KindFault::Shape(1))?;
    let wid = int_at(items, 2).ok_or(KindFault::Shape(2))?;
    let width = int_at(items, 3).ok_or(KindFault::Shape(3))?;
    let height = int_at(items, 4).ok_or(KindFault::Shape(4))?;
    let decode_time = int_at(items, 5).ok_or(KindFault::Shape(5))?;
    let message = copy_at(alloc, items, 6)?;
    Ok(FromClient::DamageSequence {
        packet_sequence,
        wid,
        width,
        height,
        decode_time,
        message,
    })
}

fn buffer_refresh_in(alloc: Global, items: &[Value]) -> Result<FromClient, KindFault>
    ensures { Answers (buffer_refresh_in items.now) result }
{
    let wid = int_at(items, 1).ok_or(KindFault::Shape(1))?;
    let further = copy_behind(alloc, items, 2)?;
    Ok(FromClient::BufferRefresh { wid, further })
}

fn ping_in(alloc: Global, items: &[Value]) -> Result<FromClient, KindFault>
    ensures { Answers (ping_in items.now) result }
{
    let t = int_at(items, 1).ok_or(KindFault::Shape(1))?;
    let further = copy_behind(alloc, items, 2)?;
    Ok(FromClient::Ping { t, further })
}

fn disconnect_in(alloc: Global, items: &[Value]) -> Result<FromClient, KindFault>
    ensures { Answers (Ok (C.Disconnect (drop 1 items.now))) result }
{
    let further = copy_behind(alloc, items, 1)?;
    Ok(FromClient::Disconnect { further })
}
