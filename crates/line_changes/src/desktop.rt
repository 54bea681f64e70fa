// A paint line on the desktop.
ghost use Rattle.std.specs.Prelude.{◌≡◌, OnOk, OnErr};
ghost use Rattle.xp_base.specs.Points.{IsRectangle};
ghost use Rattle.paint_script.specs.Painting.{painted, rectangle};
ghost use Rattle.paint_script.specs.Validity.{IsPaintOn};

use script_lines::Paint;
use window_model::Desk;
use xp_base::{NoMemory, Rect};

/// Applies the line to the desktop, or changes nothing where there is no memory.
pub fn paint_desk(desk: &mut Desk, line: &Paint) -> Result<(), NoMemory>
    requires { IsPaintOn desk.old line.now }
    ensures ok { OnOk result (desk.new ≡ painted desk.old line.now) }
    ensures same { OnErr result (desk.new ≡ desk.old) }
{
    match *line {
        Paint::Open { wid, x, y, w, h } => return desk.add(wid, x, y, w, h),
        Paint::Close { wid } => desk.remove(wid),
        Paint::Fill { wid, x, y, w, h, c } => desk.fill(wid, rect_of(x, y, w, h), c),
        Paint::Copy {
            wid,
            x,
            y,
            w,
            h,
            tx,
            ty,
        } => return desk.copy(wid, rect_of(x, y, w, h), tx, ty),
        Paint::Noise {
            wid,
            x,
            y,
            w,
            h,
            seed,
        } => return desk.noise(wid, rect_of(x, y, w, h), seed),
        Paint::Resize { wid, w, h } => return desk.resize(wid, w, h),
        Paint::Move { wid, x, y } => desk.place(wid, x, y),
        Paint::Raise { wid } => desk.raise(wid),
    }
    Ok(())
}

/// The rectangle of these numbers.
pub(crate) fn rect_of(x: u32, y: u32, w: u32, h: u32) -> Rect
    requires { IsRectangle (rectangle x y w h) }
    ensures { result ≡ rectangle x y w h }
{
    let Some(r) = Rect::new(x, y, w, h) else {
        unreachable!()
    };
    r
}
