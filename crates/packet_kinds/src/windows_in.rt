// Packets on windows, read.
ghost use Rattle.packet_kinds.specs.Answers.{Answers};
ghost use Rattle.packet_kinds.specs.ToShapes.{new_window_in, lost_window_in, window_resized_in, move_resize_in, raise_window_in};

use crate::fault::KindFault;
use crate::items_in::{place_at, side_at, wid_at};
use crate::to_client::ToClient;
use bencode_values::Value;

pub(crate) fn new_window_in(items: &[Value]) -> Result<ToClient, KindFault>
    ensures { Answers (new_window_in items.now) result }
{
    let wid = wid_at(items, 1).ok_or(KindFault::Shape(1))?;
    let x = place_at(items, 2).ok_or(KindFault::Shape(2))?;
    let y = place_at(items, 3).ok_or(KindFault::Shape(3))?;
    let w = side_at(items, 4).ok_or(KindFault::Shape(4))?;
    let h = side_at(items, 5).ok_or(KindFault::Shape(5))?;
    Ok(ToClient::NewWindow { wid, x, y, w, h })
}

pub(crate) fn lost_window_in(items: &[Value]) -> Result<ToClient, KindFault>
    ensures { Answers (lost_window_in items.now) result }
{
    let wid = wid_at(items, 1).ok_or(KindFault::Shape(1))?;
    Ok(ToClient::LostWindow { wid })
}

pub(crate) fn window_resized_in(items: &[Value]) -> Result<ToClient, KindFault>
    ensures { Answers (window_resized_in items.now) result }
{
    let wid = wid_at(items, 1).ok_or(KindFault::Shape(1))?;
    let w = side_at(items, 2).ok_or(KindFault::Shape(2))?;
    let h = side_at(items, 3).ok_or(KindFault::Shape(3))?;
    Ok(ToClient::WindowResized { wid, w, h })
}

pub(crate) fn move_resize_in(items: &[Value]) -> Result<ToClient, KindFault>
    ensures { Answers (move_resize_in items.now) result }
{
    let wid = wid_at(items, 1).ok_or(KindFault::Shape(1))?;
    let x = place_at(items, 2).ok_or(KindFault::Shape(2))?;
    let y = place_at(items, 3).ok_or(KindFault::Shape(3))?;
    let w = side_at(items, 4).ok_or(KindFault::Shape(4))?;
    let h = side_at(items, 5).ok_or(KindFault::Shape(5))?;
    Ok(ToClient::WindowMoveResize { wid, x, y, w, h })
}

pub(crate) fn raise_window_in(items: &[Value]) -> Result<ToClient, KindFault>
    ensures { Answers (raise_window_in items.now) result }
{
    let wid = wid_at(items, 1).ok_or(KindFault::Shape(1))?;
    Ok(ToClient::RaiseWindow { wid })
}
