// Draws, read.
ghost use Rattle.std.specs.Prelude.{◌≡◌};
ghost use Rattle.packet_kinds.specs.Answers.{Answers};
ghost use Rattle.packet_kinds.specs.DrawFields.{draw_of, FieldsAre};
ghost use Rattle.packet_kinds.specs.ToShapes.{draw_in, draw_data_in};

use crate::copies::copy_bytes;
use crate::draw_fields::DrawFields;
use crate::fault::KindFault;
use crate::items_in::{
    bytes_at, coding_at, int_at, into_bytes, point_at, side_from, stride_at, wid_at,
};
use crate::to_client::ToClient;
use bencode_values::{Items, Value};
use std::alloc::Global;
use xp_base::{Bytes, Wid};

/// A draw, with a copy of its bytes.
pub(crate) fn draw_in(alloc: Global, items: &[Value]) -> Result<ToClient, KindFault>
    ensures { Answers (draw_in items.now) result }
{
    let fields = draw_fields(items)?;
    let Some(bytes) = bytes_at(items, 7) else {
        unreachable!()
    };
    let copy = copy_bytes(alloc, bytes)?;
    Ok(with_bytes(fields, copy))
}

/// A draw, with its bytes moved out of the items.
pub(crate) fn take_draw(items: Items) -> Result<ToClient, KindFault>
    ensures { Answers (draw_in items) result }
{
    let fields = draw_fields(items.as_slice())?;
    let mut rest = items;
    let Some(bytes) = into_bytes(rest.remove(7)) else {
        unreachable!()
    };
    Ok(with_bytes(fields, bytes))
}

/// A draw of these fields and these bytes.
fn with_bytes(fields: DrawFields, bytes: Bytes) -> ToClient
    ensures { result ≡ draw_of fields bytes }
{
    ToClient::Draw {
        wid: fields.wid,
        x: fields.x,
        y: fields.y,
        w: fields.w,
        h: fields.h,
        coding: fields.coding,
        bytes,
        packet_sequence: fields.packet_sequence,
        rowstride: fields.rowstride,
    }
}

/// What a draw says beside its bytes, where its bytes are there too.
fn draw_fields(items: &[Value]) -> Result<DrawFields, KindFault>
    ensures { FieldsAre items.now (draw_in items.now) result }
{
    let wid = wid_at(items, 1).ok_or(KindFault::Shape(1))?;
    let x = point_at(items, 2).ok_or(KindFault::Shape(2))?;
    let y = point_at(items, 3).ok_or(KindFault::Shape(3))?;
    let w = side_from(x, items, 4).ok_or(KindFault::Shape(4))?;
    let h = side_from(y, items, 5).ok_or(KindFault::Shape(5))?;
    draw_data_fields(items, wid, x, y, w, h)
}

/// The same from its coding on.
fn draw_data_fields(
    items: &[Value],
    wid: Wid,
    x: u32,
    y: u32,
    w: u32,
    h: u32,
) -> Result<DrawFields, KindFault>
    ensures { FieldsAre items.now (draw_data_in items.now wid x y w h) result }
{
    let coding = coding_at(items, 6).ok_or(KindFault::Shape(6))?;
    let _bytes = bytes_at(items, 7).ok_or(KindFault::Shape(7))?;
    let packet_sequence = int_at(items, 8).ok_or(KindFault::Shape(8))?;
    let rowstride = stride_at(items, 9).ok_or(KindFault::Shape(9))?;
    Ok(DrawFields {
        wid,
        x,
        y,
        w,
        h,
        coding,
        packet_sequence,
        rowstride,
    })
}
