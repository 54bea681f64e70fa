// What a set of points does, whatever it is kept as.
ghost use Rattle.std.specs.Prelude.{◌≡◌, ℕ, Bool, IfOk, OnOk, OnErr, MatchOption};
ghost use Rattle.xp_base.specs.Points.{is_in};
ghost use Rattle.rect_regions.specs.PointSets.{SamePoints, HasNone, IsLimited, united, without, shared, count_of, IsBounds};
ghost use Rattle.rect_regions.specs.Bands.{IsRowBands};

use std::alloc::Global;
use xp_base::{NoMemory, Rect, Rects};

/// A set of points in 4,096 by 4,096 pixels. A call that finds no memory leaves the points as they
/// were.
pub trait Points: Drop {
    /// Whether the set has the point in this column and row.
    ghost has: { Self → ℕ → ℕ → Bool };

    /// No points. It takes no memory.
    fn new(alloc: Global) -> Self
        ensures { HasNone (has result) };

    /// Whether it has the point in this column and row.
    fn has(&self, x: u32, y: u32) -> bool
        ensures value { result ≡ has self.now x y }
        ensures limited { IsLimited (has self.now) };

    /// How many points it has.
    fn count(&self) -> u64
        ensures { result ≡ count_of (has self.now) };

    /// The least rectangle that holds all its points; `None` exactly where there are none.
    fn bounds(&self) -> Option<Rect>
        ensures { MatchOption result (HasNone (has self.now)) (λ r. IsBounds (has self.now) r) };

    /// Takes all points away.
    fn clear(&mut self)
        ensures { HasNone (has self.new) };

    /// Adds the points of a rectangle.
    fn union_rect(&mut self, r: Rect) -> Result<(), NoMemory>
        ensures ok { OnOk result (SamePoints (has self.new) (united (has self.old) (is_in r))) }
        ensures err { OnErr result (SamePoints (has self.new) (has self.old)) };

    /// Adds the points of another set.
    fn union(&mut self, o: &Self) -> Result<(), NoMemory>
        ensures ok { OnOk result (SamePoints (has self.new) (united (has self.old) (has o.now))) }
        ensures err { OnErr result (SamePoints (has self.new) (has self.old)) };

    /// Takes the points of a rectangle away.
    fn subtract_rect(&mut self, r: Rect) -> Result<(), NoMemory>
        ensures ok { OnOk result (SamePoints (has self.new) (without (has self.old) (is_in r))) }
        ensures err { OnErr result (SamePoints (has self.new) (has self.old)) };

    /// Takes all points outside a rectangle away.
    fn clip(&mut self, r: Rect) -> Result<(), NoMemory>
        ensures ok { OnOk result (SamePoints (has self.new) (shared (has self.old) (is_in r))) }
        ensures err { OnErr result (SamePoints (has self.new) (has self.old)) };

    /// The same points once more.
    fn copy(&self) -> Result<Self, NoMemory>
        ensures { IfOk result (λ copy. SamePoints (has copy) (has self.now)) };

    /// Its points in a rectangle, as a set of their own.
    fn part(&self, r: Rect) -> Result<Self, NoMemory>
        ensures { IfOk result (λ part. SamePoints (has part) (shared (has self.now) (is_in r))) };

    /// Its row-band list: each row cut into maximal runs, equal neighbouring rows joined, from top to
    /// bottom and from left to right.
    fn rects(&self) -> Result<Rects, NoMemory>
        ensures { IfOk result (λ rects. IsRowBands (has self.now) rects) };
}
