// Rectangles of pixels.
ghost use Rattle.std.specs.Prelude.{◌≡◌, ◌≤◌, ◌<◌, ◌+◌, ◌*◌, ◌↔◌, ◌⊎◌, IsTrue, IsNone, IfSome};
ghost use Rattle.xp_base.specs.Points.{IsRectangle, LiesIn, is_in, area};

use std::marker::Model;

/// The columns `x` to `x + w - 1` in the rows `y` to `y + h - 1`, in pixels from a window's top left
/// corner. Both sides are at least 1, and the rectangle lies in 4,096 by 4,096.
#[derive(Clone, Copy, Debug, PartialEq, Eq, PartialOrd, Ord, Hash)]
pub struct Rect {
    pub x: u32,
    pub y: u32,
    pub w: u32,
    pub h: u32,
}

impl Model for Rect {
    ghost use Rattle.xp_base.specs.Points.{Rectangle, IsRectangle};

    ghost Value = { Rectangle };

    ghost view = { λ r. record { x = r.x; y = r.y; w = r.w; h = r.h } };

    ghost invariant = { λ r. IsRectangle (record { x = r.x; y = r.y; w = r.w; h = r.h }) };

    ghost inverse = { λ r. record { x = r.x; y = r.y; w = r.w; h = r.h } };
}

impl Rect {
    /// The side of the square that every rectangle lies in.
    pub const LIMIT: u32 = 4096;

    /// `None` exactly where a side is 0 or the rectangle leaves 4,096 by 4,096.
    pub fn new(x: u32, y: u32, w: u32, h: u32) -> Option<Rect>
        ensures none { IsNone result ↔ ((w ≡ 0) ⊎ (h ≡ 0) ⊎ (4096 < x + w) ⊎ (4096 < y + h)) }
        ensures some { IfSome result (λ r. r ≡ record { x = x; y = y; w = w; h = h }) }
    {
        if w == 0 || h == 0 || x > Rect::LIMIT || y > Rect::LIMIT {
            return None;
        }
        if w > Rect::LIMIT - x || h > Rect::LIMIT - y {
            return None;
        }
        Some(Rect { x, y, w, h })
    }

    /// What every rectangle keeps, as a fact for proofs; the answer is how many pixels it has.
    pub fn area(self) -> u32
        ensures value { result ≡ area self }
        ensures kept { IsRectangle self }
        ensures small { result ≤ 4096 * 4096 }
    {
        self.w * self.h
    }

    pub fn contains(self, x: u32, y: u32) -> bool
        ensures { result ≡ is_in self x y }
    {
        x >= self.x && x < self.x + self.w && y >= self.y && y < self.y + self.h
    }

    /// Whether it lies in a window of `w` by `h` pixels.
    pub fn lies_in(self, w: u32, h: u32) -> bool
        ensures { IsTrue result ↔ LiesIn w h self }
    {
        self.x + self.w <= w && self.y + self.h <= h
    }
}
