// Rows in which a list of rectangles has the same columns.
ghost use Rattle.std.specs.Prelude.{◌≡◌, ◌≤◌, ◌<◌, ◌+◌};
ghost use Rattle.rect_regions.specs.Bands.{Each};
ghost use Rattle.rect_regions.specs.Sweeping.{IsSorted, IsBelow, IsFirstBand, IsStretch};

use xp_base::Rect;

/// Rows down to `bottom - 1` in which a list has the columns of a band, and what is left below them.
#[derive(Drop)]
pub struct Stretch<'a> {
    pub bottom: u32,
    pub band: &'a [Rect],
    pub below: &'a [Rect],
}

/// The rows from `top` on in which the same columns are had.
pub fn stretch_at(left: &[Rect], top: u32) -> Stretch<'_>
    requires limit { top < 4096 }
    requires sorted { IsSorted left.now }
    requires reach { Each (λ r. top < r.y + r.h) left.now }
    ensures { IsStretch left.now top result.bottom result.band.now result.below.now }
{
    let (none, _) = left.split_at(0);
    if left.is_empty() {
        return Stretch {
            bottom: Rect::LIMIT,
            band: none,
            below: left,
        };
    }
    let first = left[0];
    if top < first.y {
        return Stretch {
            bottom: first.y,
            band: none,
            below: left,
        };
    }
    let (band, below) = first_band(left, first.y);
    Stretch {
        bottom: first.y + first.h,
        band,
        below,
    }
}

/// The rectangles that begin in this row, and those behind them.
fn first_band(left: &[Rect], top: u32) -> (&[Rect], &[Rect])
    ensures { IsFirstBand top left.now result.0.now result.1.now }
{
    for i in 0..left.len() {
        let r = left[i];
        if r.y != top {
            return left.split_at(i);
        }
    }
    left.split_at(left.len())
}

/// What is left from a row on, in a stretch from `top` on or at its end.
pub fn left_below<'a>(left: &'a [Rect], top: u32, rows: Stretch<'a>, row: u32) -> &'a [Rect]
    requires sorted { IsSorted left.now }
    requires stretch { IsStretch left.now top rows.bottom rows.band.now rows.below.now }
    requires within { row ≤ rows.bottom }
    ensures { IsBelow row left.now result.now }
{
    if row == rows.bottom { rows.below } else { left }
}
