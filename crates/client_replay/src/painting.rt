// What a packet does to the windows.
ghost use Rattle.std.specs.Prelude.{◌≡◌, true, Some, OnOk, OnErr, if◌then◌else◌};
ghost use Rattle.window_model.specs.Desktop.{IsSide, IsPlace, has_window, opened, without_window, raised, moved_on, resized_on};
ghost use Rattle.packet_kinds.specs.Effects.{effect};
ghost use Rattle.packet_kinds.specs.Fields.{IsInRange};
ghost use Rattle.packet_kinds.specs.Replies.{has_effect};

use crate::drawing::draw;
use packet_kinds::ToClient;
use rgb_encoders::pixel_size;
use std::alloc::Global;
use window_model::Desk;
use xp_base::{NoMemory, Rect, Wid};

/// Whether a draw's bytes are its pixels; so of any other packet.
pub(crate) fn holds_its_pixels(message: &ToClient) -> bool
    requires { IsInRange message.now }
    ensures { result ≡ has_effect message.now }
{
    match message {
        ToClient::Draw {
            w,
            h,
            coding,
            bytes,
            rowstride,
            ..
        } => {
            *rowstride >= *w * pixel_size(*coding)
                && bytes.as_slice().len() == *rowstride as usize * *h as usize
        }
        ToClient::Hello { .. }
        | ToClient::NewWindow { .. }
        | ToClient::LostWindow { .. }
        | ToClient::WindowResized { .. }
        | ToClient::WindowMoveResize { .. }
        | ToClient::RaiseWindow { .. }
        | ToClient::PingEcho { .. }
        | ToClient::Disconnect { .. }
        | ToClient::Other => true,
    }
}

/// The windows after a packet. A packet on a window that is not there does nothing.
pub(crate) fn apply(alloc: Global, desk: &mut Desk, message: &ToClient) -> Result<(), NoMemory>
    requires range { IsInRange message.now }
    requires effect { has_effect message.now ≡ true }
    ensures ok { OnOk result (effect desk.old message.now ≡ Some desk.new) }
    ensures err { OnErr result (desk.new ≡ desk.old) }
{
    match message {
        ToClient::NewWindow { wid, x, y, w, h } => open(desk, *wid, *x, *y, *w, *h),
        ToClient::LostWindow { wid } => {
            lose(desk, *wid);
            Ok(())
        }
        ToClient::WindowResized { wid, w, h } => resize(desk, *wid, *w, *h),
        ToClient::WindowMoveResize { wid, x, y, .. } => {
            place(desk, *wid, *x, *y);
            Ok(())
        }
        ToClient::RaiseWindow { wid } => {
            raise(desk, *wid);
            Ok(())
        }
        ToClient::Draw {
            wid,
            x,
            y,
            w,
            h,
            coding,
            bytes,
            rowstride,
            ..
        } => {
            let Some(r) = Rect::new(*x, *y, *w, *h) else {
                unreachable!()
            };
            draw(alloc, desk, *wid, r, *coding, bytes.as_slice(), *rowstride)
        }
        ToClient::Hello { .. }
        | ToClient::PingEcho { .. }
        | ToClient::Disconnect { .. }
        | ToClient::Other => Ok(()),
    }
}

/// Whether the window is there.
fn is_there(desk: &Desk, wid: Wid) -> bool
    ensures { result ≡ has_window desk.now wid }
{
    desk.find(wid).is_some()
}

fn open(desk: &mut Desk, wid: Wid, x: i32, y: i32, w: u32, h: u32) -> Result<(), NoMemory>
    requires wide { IsSide w }
    requires high { IsSide h }
    requires across { IsPlace x }
    requires down { IsPlace y }
    ensures ok { OnOk result (desk.new ≡ (if has_window desk.old wid then desk.old else opened desk.old wid x y w h)) }
    ensures err { OnErr result (desk.new ≡ desk.old) }
{
    if is_there(desk, wid) {
        return Ok(());
    }
    desk.add(wid, x, y, w, h)
}

fn lose(desk: &mut Desk, wid: Wid)
    ensures { desk.new ≡ without_window desk.old wid }
{
    if is_there(desk, wid) {
        desk.remove(wid);
    }
}

fn resize(desk: &mut Desk, wid: Wid, w: u32, h: u32) -> Result<(), NoMemory>
    requires wide { IsSide w }
    requires high { IsSide h }
    ensures ok { OnOk result (desk.new ≡ resized_on desk.old wid w h) }
    ensures err { OnErr result (desk.new ≡ desk.old) }
{
    if !is_there(desk, wid) {
        return Ok(());
    }
    desk.resize(wid, w, h)
}

fn place(desk: &mut Desk, wid: Wid, x: i32, y: i32)
    requires across { IsPlace x }
    requires down { IsPlace y }
    ensures { desk.new ≡ moved_on desk.old wid x y }
{
    if is_there(desk, wid) {
        desk.place(wid, x, y);
    }
}

fn raise(desk: &mut Desk, wid: Wid)
    ensures { desk.new ≡ raised desk.old wid }
{
    if is_there(desk, wid) {
        desk.raise(wid);
    }
}
