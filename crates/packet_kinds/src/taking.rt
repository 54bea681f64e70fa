// Reading packets from the server out of values that are not needed any more.
ghost use Rattle.std.specs.Prelude.{◌≡◌, IsTrue};
ghost use Rattle.packet_kinds.specs.Answers.{Answers};
ghost use Rattle.packet_kinds.specs.ToShapes.{list_to_client, to_client, draw_in};

use crate::draws_in::take_draw;
use crate::fault::KindFault;
use crate::items_in::bytes_at;
use crate::to_client::ToClient;
use crate::to_reading::list_to_client;
use bencode_values::{Items, Value};
use std::alloc::Global;

/// What a value says as a packet of the server, as `read_to_client` answers. A draw's bytes are moved out of the value,
/// and not copied.
#[tactic(auto, using(crate::proofs::Items::item_forms), unfolding(crate::specs::ToShapes::to_client))]
pub fn take_to_client(alloc: Global, value: Value) -> Result<ToClient, KindFault>
    ensures { Answers (to_client value) result }
{
    match value {
        Value::Int(_number) => Err(KindFault::Shape(0)),
        Value::Bytes(_text) => Err(KindFault::Shape(0)),
        Value::List(items) => take_list(alloc, items),
        Value::Dict(_pairs) => Err(KindFault::Shape(0)),
    }
}

/// The same of a list.
fn take_list(alloc: Global, items: Items) -> Result<ToClient, KindFault>
    ensures { Answers (list_to_client items) result }
{
    if is_draw(items.as_slice()) {
        return take_draw(items);
    }
    list_to_client(alloc, items.as_slice())
}

/// Whether a list has the name of a draw.
fn is_draw(items: &[Value]) -> bool
    ensures { IsTrue result → list_to_client items.now ≡ draw_in items.now }
{
    let Some(name) = bytes_at(items, 0) else {
        return false;
    };
    name.as_slice() == b"draw".as_slice()
}
