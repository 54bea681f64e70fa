// A client's packets as values.
ghost use Rattle.std.specs.Prelude.{◌≡◌, IfOk, codes, ◌∷◌, []};
ghost use Rattle.packet_kinds.specs.Items.{text, optional};
ghost use Rattle.packet_kinds.specs.FromClients.{from_items, from_value};
ghost use Rattle.bencode_values.specs.declared.value.Value.TheVariants as V;

use crate::copies::{copy_items, copy_value};
use crate::from_client::FromClient;
use crate::items_out::{named, named_optional};
use bencode_values::{Items, Value};
use std::alloc::Global;
use xp_base::NoMemory;

/// The value of a packet.
#[tactic(auto, unfolding(crate::specs::FromClients::from_value))]
pub(crate) fn from_value(alloc: Global, message: &FromClient) -> Result<Value, NoMemory>
    ensures { IfOk result (λ value. value ≡ from_value message.now) }
{
    Ok(Value::List(from_items(alloc, message)?))
}

/// Its items.
fn from_items(alloc: Global, message: &FromClient) -> Result<Items, NoMemory>
    ensures { IfOk result (λ items. items ≡ from_items message.now) }
{
    match message {
        FromClient::Hello { caps } => named_optional(alloc, b"hello", caps),
        FromClient::MapWindow { wid, further } => open(alloc, b"map-window", *wid, further),
        FromClient::UnmapWindow { wid, further } => open(alloc, b"unmap-window", *wid, further),
        FromClient::DamageSequence {
            packet_sequence,
            wid,
            width,
            height,
            decode_time,
            message,
        } => {
            let mut items = drawn(alloc, *packet_sequence, *wid, *width, *height, *decode_time)?;
            if let Some(message) = message {
                items.push(copy_value(alloc, message)?)?;
            }
            Ok(items)
        }
        FromClient::BufferRefresh { wid, further } => open(alloc, b"buffer-refresh", *wid, further),
        FromClient::Ping { t, further } => open(alloc, b"ping", *t, further),
        FromClient::Disconnect { further } => {
            let mut items = named(alloc, b"disconnect")?;
            items.append(copy_items(alloc, further.as_slice())?)?;
            Ok(items)
        }
        FromClient::Other => Ok(Items::new(alloc)),
    }
}

/// A packet of its name, an integer and further items.
fn open(alloc: Global, name: &[u8], n: i64, further: &Items) -> Result<Items, NoMemory>
    ensures { IfOk result (λ items. items ≡ text name.now ∷ V.Int n ∷ further.now) }
{
    let mut items = named(alloc, name)?;
    items.push(Value::Int(n))?;
    items.append(copy_items(alloc, further.as_slice())?)?;
    Ok(items)
}

/// An acknowledgement without its message.
fn drawn(
    alloc: Global,
    packet_sequence: i64,
    wid: i64,
    width: i64,
    height: i64,
    decode_time: i64,
) -> Result<Items, NoMemory>
    ensures { IfOk result (λ items. items ≡ text (codes "damage-sequence") ∷ V.Int packet_sequence ∷ V.Int wid ∷ V.Int width ∷ V.Int height ∷ V.Int decode_time ∷ []) }
{
    let mut items = named(alloc, b"damage-sequence")?;
    items.push(Value::Int(packet_sequence))?;
    items.push(Value::Int(wid))?;
    items.push(Value::Int(width))?;
    items.push(Value::Int(height))?;
    items.push(Value::Int(decode_time))?;
    Ok(items)
}
