// A paint line as clients meet it.
ghost use Rattle.std.specs.Prelude.{◌≡◌};
ghost use Rattle.xp_base.specs.Points.{IsRectangle};
ghost use Rattle.paint_script.specs.Painting.{rectangle};
ghost use Rattle.paint_script.specs.Validity.{IsPaintOn, IsMoveOn, IsResizeOn};
ghost use Rattle.attached_client.specs.declared.change.Change.TheVariants as C;
ghost use Rattle.line_changes.specs.Changes.{IsChangeOf, IsMoveOf, IsResizeOf};

use crate::desktop::rect_of;
use attached_client::Change;
use script_lines::Paint;
use window_model::{Desk, Geometry};
use xp_base::Wid;

/// What the line is to a client, on the desktop that it meets. A fill, a copy and noise are the rectangle whose pixels
/// they change: that of a copy has its target's corner.
pub fn change_of(line: &Paint, desk: &Desk) -> Change
    requires { IsPaintOn desk.now line.now }
    ensures { IsChangeOf desk.now line.now result }
{
    // For the proof: what every desktop keeps.
    let _windows = desk.len();
    match *line {
        Paint::Open { wid, x, y, w, h } => Change::Opened(Geometry::new(wid, x, y, w, h)),
        Paint::Close { wid } => Change::Closed(wid),
        Paint::Fill {
            wid,
            x,
            y,
            w,
            h,
            c: _,
        } => damaged(wid, x, y, w, h),
        Paint::Copy {
            wid,
            x: _,
            y: _,
            w,
            h,
            tx,
            ty,
        } => damaged(wid, tx, ty, w, h),
        Paint::Noise {
            wid,
            x,
            y,
            w,
            h,
            seed: _,
        } => damaged(wid, x, y, w, h),
        Paint::Move { wid, x, y } => moved(desk, wid, x, y),
        Paint::Raise { wid } => Change::Raised(wid),
        Paint::Resize { wid, w, h } => resized(desk, wid, w, h),
    }
}

/// A rectangle of a window has other pixels perhaps.
fn damaged(wid: Wid, x: u32, y: u32, w: u32, h: u32) -> Change
    requires { IsRectangle (rectangle x y w h) }
    ensures { result ≡ C.Damaged wid (rectangle x y w h) }
{
    Change::Damaged(wid, rect_of(x, y, w, h))
}

/// A window that has its size has another place.
fn moved(desk: &Desk, wid: Wid, x: i32, y: i32) -> Change
    requires { IsMoveOn desk.now wid x y }
    ensures { IsMoveOf desk.now wid x y result }
{
    let Some(window) = desk.find(wid) else {
        unreachable!()
    };
    // For the proof: what every window keeps.
    let _area = window.area();
    Change::Moved(Geometry::new(wid, x, y, window.w, window.h))
}

/// A window that has its place has another size.
fn resized(desk: &Desk, wid: Wid, w: u32, h: u32) -> Change
    requires { IsResizeOn desk.now wid w h }
    ensures { IsResizeOf desk.now wid w h result }
{
    let Some(window) = desk.find(wid) else {
        unreachable!()
    };
    // For the proof: what every window keeps.
    let _area = window.area();
    Change::Resized(Geometry::new(wid, window.x, window.y, w, h))
}
