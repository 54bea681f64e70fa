// The runs of a row of truth values.
ghost use Rattle.std.specs.Prelude.{◌≡◌, ◌≤◌, ◌<◌, ◌+◌, ◌-◌, OnOk};
ghost use Rattle.rect_regions.specs.Making.{AppendsMarks};

use crate::bands::end_run;
use crate::bit_region::BitRegion;
use crate::bit_rows::PointTest;
use xp_base::{NoMemory, Rect};

/// Appends the runs of a row, each as a rectangle.
pub fn append_row(rects: &mut Vec<Rect>, bits: &BitRegion, y: u32) -> Result<(), NoMemory>
    requires { y < bits.now.high }
    ensures { OnOk result (AppendsMarks rects.old.items rects.new.items bits.now y) }
{
    let wide = bits.wide();
    // The columns from here on to `x` are of a run that has not ended.
    let mut from = 0;
    for x in 0..wide {
        if !bits.test(x, y) {
            end_run(rects, y, y + 1, from, x)?;
            from = x + 1;
        }
    }
    end_run(rects, y, y + 1, from, wide)
}
