// The server's packets as values.
ghost use Rattle.std.specs.Prelude.{◌≡◌, IfOk, codes, ◌∷◌, ◌++◌, []};
ghost use Rattle.packet_kinds.specs.Items.{number, text, no_pairs, options, coding_name};
ghost use Rattle.packet_kinds.specs.ToClients.{to_items, to_value, to_chunk};
ghost use Rattle.bencode_values.specs.declared.value.Value.TheVariants as V;

use crate::items_out::{coding_name, named, named_optional, number, options, text};
use crate::to_client::ToClient;
use bencode_values::{Items, Pairs, Value};
use packet_frames::Chunk;
use std::alloc::Global;
use xp_base::{Coding, NoMemory, Wid};

/// The value of a packet, with an empty byte string in the place of a draw's bytes.
pub(crate) fn to_value(alloc: Global, message: &ToClient) -> Result<Value, NoMemory>
    ensures { IfOk result (λ value. value ≡ to_value message.now) }
{
    Ok(Value::List(to_items(alloc, message)?))
}

/// Its items.
fn to_items(alloc: Global, message: &ToClient) -> Result<Items, NoMemory>
    ensures { IfOk result (λ items. items ≡ to_items message.now) }
{
    match message {
        ToClient::Hello { caps } => named_optional(alloc, b"hello", caps),
        ToClient::NewWindow { wid, x, y, w, h } => new_window(alloc, *wid, *x, *y, *w, *h),
        ToClient::LostWindow { wid } => on_window(alloc, b"lost-window", *wid),
        ToClient::WindowResized { wid, w, h } => window_resized(alloc, *wid, *w, *h),
        ToClient::WindowMoveResize { wid, x, y, w, h } => {
            placed_window(alloc, b"window-move-resize", *wid, *x, *y, *w, *h)
        }
        ToClient::RaiseWindow { wid } => on_window(alloc, b"raise-window", *wid),
        ToClient::Draw {
            wid,
            x,
            y,
            w,
            h,
            coding,
            bytes: _,
            packet_sequence,
            rowstride,
        } => {
            let items = draw_area(alloc, *wid, *x, *y, *w, *h)?;
            draw_data(alloc, items, *coding, *packet_sequence, *rowstride)
        }
        ToClient::PingEcho { t } => ping_echo(alloc, *t),
        ToClient::Disconnect { reason } => named_optional(alloc, b"disconnect", reason),
        ToClient::Other => Ok(Items::new(alloc)),
    }
}

/// A packet of its name and a window.
fn on_window(alloc: Global, name: &[u8], wid: Wid) -> Result<Items, NoMemory>
    ensures { IfOk result (λ items. items ≡ text name.now ∷ number wid ∷ []) }
{
    let mut items = named(alloc, name)?;
    items.push(number(u32::from(wid.get())))?;
    Ok(items)
}

/// A packet of its name, a window, and the window's place and size.
fn placed_window(
    alloc: Global,
    name: &[u8],
    wid: Wid,
    x: i32,
    y: i32,
    w: u32,
    h: u32,
) -> Result<Items, NoMemory>
    ensures { IfOk result (λ items. items ≡ text name.now ∷ number wid ∷ V.Int x ∷ V.Int y ∷ number w ∷ number h ∷ []) }
{
    let mut items = on_window(alloc, name, wid)?;
    items.push(Value::Int(i64::from(x)))?;
    items.push(Value::Int(i64::from(y)))?;
    items.push(number(w))?;
    items.push(number(h))?;
    Ok(items)
}

fn new_window(alloc: Global, wid: Wid, x: i32, y: i32, w: u32, h: u32) -> Result<Items, NoMemory>
    ensures { IfOk result (λ items. items ≡ text (codes "new-window") ∷ number wid ∷ V.Int x ∷ V.Int y ∷ number w ∷ number h ∷ no_pairs ∷ []) }
{
    let mut items = placed_window(alloc, b"new-window", wid, x, y, w, h)?;
    items.push(Value::Dict(Pairs::new(alloc)))?;
    Ok(items)
}

fn window_resized(alloc: Global, wid: Wid, w: u32, h: u32) -> Result<Items, NoMemory>
    ensures { IfOk result (λ items. items ≡ text (codes "window-resized") ∷ number wid ∷ number w ∷ number h ∷ []) }
{
    let mut items = on_window(alloc, b"window-resized", wid)?;
    items.push(number(w))?;
    items.push(number(h))?;
    Ok(items)
}

/// A draw up to its size.
fn draw_area(alloc: Global, wid: Wid, x: u32, y: u32, w: u32, h: u32) -> Result<Items, NoMemory>
    ensures { IfOk result (λ items. items ≡ text (codes "draw") ∷ number wid ∷ number x ∷ number y ∷ number w ∷ number h ∷ []) }
{
    let mut items = on_window(alloc, b"draw", wid)?;
    items.push(number(x))?;
    items.push(number(y))?;
    items.push(number(w))?;
    items.push(number(h))?;
    Ok(items)
}

/// What stands in a draw behind its size.
fn draw_data(
    alloc: Global,
    area: Items,
    coding: Coding,
    packet_sequence: i64,
    rowstride: u32,
) -> Result<Items, NoMemory>
    ensures { IfOk result (λ items. items ≡ area ++ text (coding_name coding) ∷ text [] ∷ V.Int packet_sequence ∷ number rowstride ∷ options coding ∷ []) }
{
    let mut items = area;
    items.push(text(alloc, coding_name(coding))?)?;
    items.push(text(alloc, b"")?)?;
    items.push(Value::Int(packet_sequence))?;
    items.push(number(rowstride))?;
    items.push(options(alloc, coding)?)?;
    Ok(items)
}

fn ping_echo(alloc: Global, t: i64) -> Result<Items, NoMemory>
    ensures { IfOk result (λ items. items ≡ text (codes "ping_echo") ∷ V.Int t ∷ []) }
{
    let mut items = named(alloc, b"ping_echo")?;
    items.push(Value::Int(t))?;
    Ok(items)
}

/// The chunk ahead of a packet: a draw's bytes, for the item at the place 7.
#[tactic(auto, unfolding(crate::specs::ToClients::to_chunk))]
pub(crate) fn to_chunk(alloc: Global, message: &ToClient) -> Result<Option<Chunk>, NoMemory>
    ensures { IfOk result (λ chunk. chunk ≡ to_chunk message.now) }
{
    match message {
        ToClient::Draw { bytes, .. } => {
            let copy = Vec::from_slice(alloc, bytes.as_slice())?;
            Ok(Some(Chunk {
                index: 7,
                bytes: copy,
            }))
        }
        ToClient::Hello { .. }
        | ToClient::NewWindow { .. }
        | ToClient::LostWindow { .. }
        | ToClient::WindowResized { .. }
        | ToClient::WindowMoveResize { .. }
        | ToClient::RaiseWindow { .. }
        | ToClient::PingEcho { .. }
        | ToClient::Disconnect { .. }
        | ToClient::Other => Ok(None),
    }
}
