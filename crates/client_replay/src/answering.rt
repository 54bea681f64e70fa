// What an exact client answers to a packet.
ghost use Rattle.std.specs.Prelude.{◌≡◌, IfOk, ◌∷◌, [], pos, Some};
ghost use Rattle.bencode_values.specs.declared.value.Value.TheVariants as V;
ghost use Rattle.packet_kinds.specs.declared.from_client.FromClient.TheVariants as C;
ghost use Rattle.packet_kinds.specs.Fields.{IsInRange};
ghost use Rattle.packet_kinds.specs.FromFields.{IsSmallPacket};
ghost use Rattle.packet_kinds.specs.FromClients.{IsNamed};
ghost use Rattle.packet_kinds.specs.FromWritten.{client_bytes};
ghost use Rattle.packet_kinds.specs.Items.{number, text};
ghost use Rattle.packet_kinds.specs.Replies.{answer_to, said_bytes};

use bencode_values::{Items, Value};
use packet_kinds::{
    FromClient, ToClient, a_small_packet_of_a_client_may_be_written, from_bytes_of,
};
use std::alloc::Global;
use xp_base::{Bytes, NoMemory, Wid};

/// The bytes of the answer to a packet: a map of a new window, the acknowledgement of a draw, and none otherwise.
pub(crate) fn answer(alloc: Global, message: &ToClient) -> Result<Vec<u8>, NoMemory>
    requires { IsInRange message.now }
    ensures { IfOk result (λ bytes. bytes.items ≡ said_bytes (answer_to message.now)) }
{
    match message {
        ToClient::NewWindow { wid, x, y, w, h } => map_bytes(alloc, *wid, *x, *y, *w, *h),
        ToClient::Draw {
            wid,
            w,
            h,
            packet_sequence,
            ..
        } => {
            let drawn = acknowledgement(alloc, *wid, *w, *h, *packet_sequence)?;
            small_bytes(alloc, &drawn)
        }
        ToClient::Hello { .. }
        | ToClient::LostWindow { .. }
        | ToClient::WindowResized { .. }
        | ToClient::WindowMoveResize { .. }
        | ToClient::RaiseWindow { .. }
        | ToClient::PingEcho { .. }
        | ToClient::Disconnect { .. }
        | ToClient::Other => Ok(Vec::new(alloc)),
    }
}

/// The map of a window at this place and of this size.
pub(crate) fn map_bytes(
    alloc: Global,
    wid: Wid,
    x: i32,
    y: i32,
    w: u32,
    h: u32,
) -> Result<Vec<u8>, NoMemory>
    ensures { IfOk result (λ bytes. bytes.items ≡ client_bytes (C.MapWindow (pos wid) (V.Int x ∷ V.Int y ∷ number w ∷ number h ∷ []))) }
{
    let mut further = Items::new(alloc);
    further.push(Value::Int(i64::from(x)))?;
    further.push(Value::Int(i64::from(y)))?;
    further.push(Value::Int(i64::from(w)))?;
    further.push(Value::Int(i64::from(h)))?;
    let mapped = FromClient::MapWindow {
        wid: i64::from(wid.get()),
        further,
    };
    small_bytes(alloc, &mapped)
}

/// The acknowledgement of a draw, which took no time.
fn acknowledgement(
    alloc: Global,
    wid: Wid,
    w: u32,
    h: u32,
    packet_sequence: i64,
) -> Result<FromClient, NoMemory>
    ensures { IfOk result (λ m. m ≡ C.DamageSequence packet_sequence (pos wid) (pos w) (pos h) (pos 0) (Some (text []))) }
{
    Ok(FromClient::DamageSequence {
        packet_sequence,
        wid: i64::from(wid.get()),
        width: i64::from(w),
        height: i64::from(h),
        decode_time: 0,
        message: Some(Value::Bytes(Bytes::new(Vec::new(alloc)))),
    })
}

/// The bytes of a small packet.
pub(crate) fn small_bytes(alloc: Global, message: &FromClient) -> Result<Vec<u8>, NoMemory>
    requires named { IsNamed message.now }
    requires small { IsSmallPacket message.now }
    ensures { IfOk result (λ bytes. bytes.items ≡ client_bytes message.now) }
{
    a_small_packet_of_a_client_may_be_written();
    from_bytes_of(alloc, message)
}
