// The runs of two bands, combined from left to right.
ghost use Rattle.std.specs.Prelude.{◌≡◌, ◌≤◌, ◌<◌, ◌+◌, OnOk};
ghost use Rattle.rect_regions.specs.Bands.{Each};
ghost use Rattle.rect_regions.specs.Sweeping.{IsRuns, IsRightOf, IsRun, AppendsRuns};

use crate::bands::end_run;
use crate::combination::Combination;
use xp_base::{NoMemory, Rect};

/// Columns up to `until - 1` of which a band has all or none.
#[derive(Drop)]
struct Run {
    on: bool,
    until: u32,
}

/// Appends the runs of two bands, so combined, as rectangles in the rows `top` to `bottom - 1`.
pub fn append_combined(
    rects: &mut Vec<Rect>,
    combination: Combination,
    one: &[Rect],
    other: &[Rect],
    top: u32,
    bottom: u32,
) -> Result<(), NoMemory>
    requires some { top < bottom }
    requires down { bottom ≤ 4096 }
    requires one { IsRuns one.now }
    requires other { IsRuns other.now }
    ensures { OnOk result
        (AppendsRuns combination one.now other.now rects.old.items rects.new.items top bottom) }
{
    let limit = combination.limit(right_end(one), right_end(other));
    let mut one_left = one;
    let mut other_left = other;
    // The columns from here on to `x` are of a run that has not ended.
    let mut from = 0;
    let mut x = 0;
    while x < limit {
        let one_run = run_at(one_left, x);
        let other_run = run_at(other_left, x);
        let until = one_run.until.min(other_run.until);
        one_left = right_of(one_left, until);
        other_left = right_of(other_left, until);
        if !combination.keeps(one_run.on, other_run.on) {
            end_run(rects, top, bottom, from, x)?;
            from = until;
        }
        x = until;
    }
    end_run(rects, top, bottom, from, x)
}

/// The column behind the last run.
fn right_end(band: &[Rect]) -> u32
    requires { IsRuns band.now }
    ensures limit { result ≤ 4096 }
    ensures ends { Each (λ r. r.x + r.w ≤ result) band.now }
{
    if band.is_empty() {
        return 0;
    }
    let last = band[band.len() - 1];
    last.x + last.w
}

/// Whether the band has the column, and how far the same holds.
fn run_at(left: &[Rect], x: u32) -> Run
    requires limit { x < 4096 }
    requires runs { IsRuns left.now }
    requires reach { Each (λ r. x < r.x + r.w) left.now }
    ensures { IsRun left.now x result.on result.until }
{
    if left.is_empty() {
        return Run {
            on: false,
            until: Rect::LIMIT,
        };
    }
    let first = left[0];
    if x < first.x {
        return Run {
            on: false,
            until: first.x,
        };
    }
    Run {
        on: true,
        until: first.x + first.w,
    }
}

/// What of the band reaches beyond the column, before which none of it ends.
fn right_of(left: &[Rect], x: u32) -> &[Rect]
    requires runs { IsRuns left.now }
    requires reach { Each (λ r. x ≤ r.x + r.w) left.now }
    ensures { IsRightOf x left.now result.now }
{
    if left.is_empty() {
        return left;
    }
    let first = left[0];
    if x < first.x + first.w {
        return left;
    }
    let (_, others) = left.split_at(1);
    others
}
