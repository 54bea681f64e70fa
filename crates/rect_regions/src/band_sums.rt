// How many points a sorted list of rectangles has, and the least rectangle that holds them.
ghost use Rattle.std.specs.Prelude.{◌≡◌, MatchOption};
ghost use Rattle.rect_regions.specs.PointSets.{has, HasNone, count_of, IsBounds};
ghost use Rattle.rect_regions.specs.Sweeping.{IsSorted};

use crate::bounding::with_rect;
use xp_base::Rect;

/// How many points they have.
pub fn count_points(rects: &[Rect]) -> u64
    requires { IsSorted rects.now }
    ensures { result ≡ count_of (has rects.now) }
{
    let mut count = 0;
    for i in 0..rects.len() {
        let r = rects[i];
        count += u64::from(r.area());
    }
    count
}

/// The least rectangle that holds them all.
pub fn bounds_of(rects: &[Rect]) -> Option<Rect>
    requires { IsSorted rects.now }
    ensures { MatchOption result (HasNone (has rects.now)) (λ r. IsBounds (has rects.now) r) }
{
    let mut bounds = None;
    for i in 0..rects.len() {
        bounds = Some(with_rect(bounds, rects[i]));
    }
    bounds
}
