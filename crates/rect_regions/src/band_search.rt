// Points looked for in a sorted list of rectangles.
ghost use Rattle.std.specs.Prelude.{◌≡◌, ◌≤◌, ◌+◌, length, true, false, take, drop};
ghost use Rattle.rect_regions.specs.PointSets.{has};
ghost use Rattle.rect_regions.specs.Bands.{Each};
ghost use Rattle.rect_regions.specs.Sweeping.{IsSorted, is_past};

use xp_base::Rect;

/// Whether one of the rectangles has the point.
pub fn has_point(rects: &[Rect], x: u32, y: u32) -> bool
    requires { IsSorted rects.now }
    ensures { result ≡ has rects.now x y }
{
    let place = first_not_past(rects, x, y);
    if place == rects.len() {
        return false;
    }
    let r = rects[place];
    r.contains(x, y)
}

/// How many rectangles stand before the point.
pub fn first_not_past(rects: &[Rect], x: u32, y: u32) -> usize
    requires { IsSorted rects.now }
    ensures within { result ≤ length rects.now }
    ensures before { Each (λ r. is_past r x y ≡ true) (take result rects.now) }
    ensures behind { Each (λ r. is_past r x y ≡ false) (drop result rects.now) }
{
    let mut low = 0;
    let mut high = rects.len();
    while low < high {
        let middle = low + (high - low) / 2;
        if is_past(rects[middle], x, y) {
            low = middle + 1;
        } else {
            high = middle;
        }
    }
    low
}

/// Whether the rectangle ends above the point's row, or begins by it and ends left of the point.
fn is_past(r: Rect, x: u32, y: u32) -> bool
    ensures { result ≡ is_past r x y }
{
    r.y + r.h <= y || r.y <= y && r.x + r.w <= x
}
