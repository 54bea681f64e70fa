// The pixels of one rectangle of a plan.
ghost use Rattle.std.specs.Prelude.{◌≡◌, IfOk};
ghost use Rattle.xp_base.specs.Points.{LiesIn};
ghost use Rattle.capture_jobs.specs.Captured.{captured_from};

use std::alloc::Global;
use window_model::Win;
use xp_base::{Capture, Coding, NoMemory, Rect};

/// The window's pixels in the rectangle, row by row, as they are now, to be coded so.
pub fn capture(alloc: Global, win: &Win, r: Rect, coding: Coding) -> Result<Capture, NoMemory>
    requires { LiesIn win.now.w win.now.h r }
    ensures { IfOk result (λ capture. capture ≡ captured_from win.now r coding) }
{
    let pixels = win.crop(alloc, r)?;
    Ok(Capture::new(r, coding, pixels))
}
