// Whether a sorted list of rectangles has all points of others.
ghost use Rattle.std.specs.Prelude.{◌≡◌, ◌≤◌, ◌<◌, ◌+◌, ◌↔◌, IsTrue};
ghost use Rattle.rect_regions.specs.PointSets.{has};
ghost use Rattle.rect_regions.specs.Bands.{Each};
ghost use Rattle.rect_regions.specs.Sweeping.{IsSorted, Covers, IsCoveredTo};

use crate::band_search::first_not_past;
use xp_base::Rect;

/// Whether they have all points of each of the others.
pub fn covers_all(rects: &[Rect], others: &[Rect]) -> bool
    requires { IsSorted rects.now }
    ensures { IsTrue result ↔ Each (Covers (has rects.now)) others.now }
{
    for i in 0..others.len() {
        let r = others[i];
        if !covers(rects, r) {
            return false;
        }
    }
    true
}

/// Whether they have all points of a rectangle.
pub fn covers(rects: &[Rect], r: Rect) -> bool
    requires { IsSorted rects.now }
    ensures { IsTrue result ↔ Covers (has rects.now) r }
{
    let mut y = r.y;
    while y < r.y + r.h {
        let next = covered_to(rects, r, y);
        if next == y {
            return false;
        }
        y = next;
    }
    true
}

/// The row behind those from `y` on that one band covers; `y` itself where a point is missing there.
fn covered_to(rects: &[Rect], r: Rect, y: u32) -> u32
    requires sorted { IsSorted rects.now }
    requires row { r.y ≤ y }
    requires within { y < r.y + r.h }
    ensures { IsCoveredTo rects.now r y result }
{
    let place = first_not_past(rects, r.x, y);
    if place == rects.len() {
        return y;
    }
    let s = rects[place];
    if !s.contains(r.x, y) {
        return y;
    }
    if s.x + s.w < r.x + r.w {
        return y;
    }
    s.y + s.h
}
