// Which rectangles a capture takes.
ghost use Rattle.std.specs.Prelude.{◌≡◌, IfOk};
ghost use Rattle.capture_jobs.specs.Planning.{coding_for, one_each, one_exact, IsPlanOf};

use crate::plan_list::Plan;
use crate::planned::Planned;
use rect_regions::Points;
use std::alloc::Global;
use xp_base::{Coding, NoMemory, Rect};

/// The most rectangles that a capture takes one by one.
pub const MOST_RECTANGLES: usize = 32;

/// The fewest pixels that a rectangle has which is coded lossily.
const FEWEST_LOSSY: u32 = 4096;

/// The plan of a capture of these points: the rectangles of their row-band list, one each in its order,
/// where there are at most 32, and else one exact rectangle, the least that holds them all. A rectangle
/// is lossy exactly where the client allows it, it has at least 4,096 pixels, and the capture is no
/// refresh. This project's own rule.
pub fn plan<R: Points>(
    alloc: Global,
    region: &R,
    refresh: bool,
    lossy: bool,
) -> Result<Plan, NoMemory>
    ensures { IfOk result (λ plan. IsPlanOf (R.has region.now) refresh lossy plan) }
{
    let rects = region.rects()?;
    let rects = rects.as_slice();
    if rects.len() <= MOST_RECTANGLES {
        return one_each(alloc, rects, refresh, lossy);
    }
    let Some(rect) = region.bounds() else {
        unreachable!()
    };
    one_exact(alloc, rect)
}

/// One job for each rectangle, in order.
fn one_each(alloc: Global, rects: &[Rect], refresh: bool, lossy: bool) -> Result<Plan, NoMemory>
    ensures { IfOk result (λ plan. plan ≡ one_each refresh lossy rects.now) }
{
    let mut items = Vec::with_capacity(alloc, rects.len())?;
    for i in 0..rects.len() {
        let rect = rects[i];
        items.push(Planned {
            rect,
            coding: coding_for(refresh, lossy, rect),
        })?;
    }
    Ok(Plan::new(items))
}

/// How a rectangle is coded.
fn coding_for(refresh: bool, lossy: bool, rect: Rect) -> Coding
    ensures { result ≡ coding_for refresh lossy rect }
{
    if lossy && !refresh && rect.area() >= FEWEST_LOSSY {
        Coding::Lossy
    } else {
        Coding::Exact
    }
}

/// One exact job for the rectangle.
fn one_exact(alloc: Global, rect: Rect) -> Result<Plan, NoMemory>
    ensures { IfOk result (λ plan. plan ≡ one_exact rect) }
{
    let mut items = Vec::with_capacity(alloc, 1)?;
    items.push(Planned {
        rect,
        coding: Coding::Exact,
    })?;
    Ok(Plan::new(items))
}
