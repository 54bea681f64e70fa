// The least rectangle that holds others.
ghost use Rattle.std.specs.Prelude.{◌≡◌, ◌<◌};
ghost use Rattle.rect_regions.specs.Bounding.{bounding, with_rect, with_point};

use xp_base::Rect;

/// The least rectangle that holds two.
pub fn bounding(r: Rect, s: Rect) -> Rect
    ensures { result ≡ bounding r s }
{
    let x = r.x.min(s.x);
    let y = r.y.min(s.y);
    Rect {
        x,
        y,
        w: (r.x + r.w).max(s.x + s.w) - x,
        h: (r.y + r.h).max(s.y + s.h) - y,
    }
}

/// The least rectangle that holds what was held so far, and one more.
pub fn with_rect(bounds: Option<Rect>, r: Rect) -> Rect
    ensures { result ≡ with_rect bounds r }
{
    match bounds {
        Some(held) => bounding(held, r),
        None => r,
    }
}

/// The same with a point.
pub fn with_point(bounds: Option<Rect>, x: u32, y: u32) -> Rect
    requires across { x < 4096 }
    requires down { y < 4096 }
    ensures { result ≡ with_point bounds x y }
{
    with_rect(bounds, Rect { x, y, w: 1, h: 1 })
}
