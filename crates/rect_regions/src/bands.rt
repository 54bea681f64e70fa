// Row-band lists in the making: one band after another is appended from top to bottom, and joined to
// the band above it where it goes on as that does.
ghost use Rattle.std.specs.Prelude.{◌≡◌, ◌≤◌, ◌<◌, ◌+◌, ◌-◌, ◌==◌, ◌&&◌, length, drop, OnOk};
ghost use Rattle.rect_regions.specs.PointSets.{has, SamePoints};
ghost use Rattle.rect_regions.specs.Bands.{Each};
ghost use Rattle.rect_regions.specs.Making.{IsMade, IsExtended, IsBand, same_runs, lengthened, lengthened_from, goes_on, with_run};

use xp_base::{NoMemory, Rect};

/// Joins the band from `start` on, of the rows `top` to `bottom - 1`, to the one from `last` on, if it
/// stands right below it and has the same runs. The answer is where the last band now begins.
pub fn join_band(rects: &mut Vec<Rect>, last: usize, start: usize, top: u32, bottom: u32) -> usize
    requires { IsExtended rects.old.items last start top bottom }
    ensures made { IsMade rects.new.items result bottom }
    ensures points { SamePoints (has rects.new.items) (has rects.old.items) }
{
    if start == rects.len() {
        return last;
    }
    if !goes_on(&rects[last..start], &rects[start..], top) {
        return start;
    }
    rects.truncate(start);
    lengthen(rects, last, bottom);
    last
}

/// Whether the band stands right below the one before it and has the same runs.
fn goes_on(before: &[Rect], band: &[Rect], top: u32) -> bool
    ensures { result ≡ goes_on before.now band.now top }
{
    if before.is_empty() {
        return false;
    }
    let first = before[0];
    first.y + first.h == top && same_runs(before, band)
}

/// Whether the rectangles have the same columns, one by one.
fn same_runs(one: &[Rect], other: &[Rect]) -> bool
    ensures { result ≡ same_runs one.now other.now }
{
    if one.len() != other.len() {
        return false;
    }
    for i in 0..one.len() {
        let r = one[i];
        let s = other[i];
        if r.x != s.x || r.w != s.w {
            return false;
        }
    }
    true
}

/// Lets the rectangles from `from` on reach down to the row `bottom - 1`.
fn lengthen(rects: &mut Vec<Rect>, from: usize, bottom: u32)
    requires from { from ≤ length rects.old.items }
    requires above { Each (λ r. r.y < bottom) (drop from rects.old.items) }
    requires limit { bottom ≤ 4096 }
    ensures { rects.new.items ≡ lengthened_from from bottom rects.old.items }
{
    for i in from..rects.len() {
        let r = rects[i];
        rects[i] = lengthened(r, bottom);
    }
}

/// The rectangle, down to the row `bottom - 1`.
fn lengthened(r: Rect, bottom: u32) -> Rect
    requires above { r.y < bottom }
    requires limit { bottom ≤ 4096 }
    ensures { result ≡ lengthened bottom r }
{
    Rect {
        x: r.x,
        y: r.y,
        w: r.w,
        h: bottom - r.y,
    }
}

/// Appends the columns `from` to `until - 1` of the rows `top` to `bottom - 1`, if there are any.
pub fn end_run(
    rects: &mut Vec<Rect>,
    top: u32,
    bottom: u32,
    from: u32,
    until: u32,
) -> Result<(), NoMemory>
    requires some { top < bottom }
    requires down { bottom ≤ 4096 }
    requires across { until ≤ 4096 }
    ensures { OnOk result (rects.new.items ≡ with_run rects.old.items top bottom from until) }
{
    if from < until {
        rects.push(Rect {
            x: from,
            y: top,
            w: until - from,
            h: bottom - top,
        })?;
    }
    Ok(())
}
