// Reading packets from the server.
ghost use Rattle.std.specs.Prelude.{◌≡◌, Ok, slice_get};
ghost use Rattle.packet_kinds.specs.Answers.{Answers};
ghost use Rattle.packet_kinds.specs.ToShapes.{list_to_client, to_client, to_client_named, ping_echo_in};
ghost use Rattle.packet_kinds.specs.declared.to_client.ToClient.TheVariants as T;

use crate::draws_in::draw_in;
use crate::fault::KindFault;
use crate::items_in::{bytes_at, copy_at, int_at, items_of};
use crate::to_client::ToClient;
use crate::windows_in::{
    lost_window_in, move_resize_in, new_window_in, raise_window_in, window_resized_in,
};
use bencode_values::Value;
use std::alloc::Global;

/// What a value says as a packet of the server: the packet, or the first item that is missing or does not fit. Want of
/// memory comes only where it says a packet.
#[tactic(auto, unfolding(crate::specs::ToShapes::to_client))]
pub fn read_to_client(alloc: Global, value: &Value) -> Result<ToClient, KindFault>
    ensures { Answers (to_client value.now) result }
{
    let items = items_of(value).ok_or(KindFault::Shape(0))?.as_slice();
    list_to_client(alloc, items)
}

/// The same of a list.
pub(crate) fn list_to_client(alloc: Global, items: &[Value]) -> Result<ToClient, KindFault>
    ensures { Answers (list_to_client items.now) result }
{
    let name = bytes_at(items, 0).ok_or(KindFault::Shape(0))?.as_slice();
    to_client_named(alloc, name, items)
}

/// By its name.
fn to_client_named(alloc: Global, name: &[u8], items: &[Value]) -> Result<ToClient, KindFault>
    ensures { Answers (to_client_named name.now items.now) result }
{
    if name == b"hello".as_slice() {
        return hello_in(alloc, items);
    }
    if name == b"new-window".as_slice() {
        return new_window_in(items);
    }
    if name == b"lost-window".as_slice() {
        return lost_window_in(items);
    }
    if name == b"window-resized".as_slice() {
        return window_resized_in(items);
    }
    if name == b"window-move-resize".as_slice() {
        return move_resize_in(items);
    }
    if name == b"raise-window".as_slice() {
        return raise_window_in(items);
    }
    if name == b"draw".as_slice() {
        return draw_in(alloc, items);
    }
    if name == b"ping_echo".as_slice() {
        return ping_echo_in(items);
    }
    if name == b"disconnect".as_slice() {
        return disconnect_in(alloc, items);
    }
    Ok(ToClient::Other)
}

fn hello_in(alloc: Global, items: &[Value]) -> Result<ToClient, KindFault>
    ensures { Answers (Ok (T.Hello (slice_get items.now 1))) result }
{
    let caps = copy_at(alloc, items, 1)?;
    Ok(ToClient::Hello { caps })
}

fn ping_echo_in(items: &[Value]) -> Result<ToClient, KindFault>
    ensures { Answers (ping_echo_in items.now) result }
{
    let t = int_at(items, 1).ok_or(KindFault::Shape(1))?;
    Ok(ToClient::PingEcho { t })
}

fn disconnect_in(alloc: Global, items: &[Value]) -> Result<ToClient, KindFault>
    ensures { Answers (Ok (T.Disconnect (slice_get items.now 1))) result }
{
    let reason = copy_at(alloc, items, 1)?;
    Ok(ToClient::Disconnect { reason })
}
