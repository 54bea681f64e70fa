// The commonest sets and grids, point by point: of sets, rectangles and grids that are there.
ghost use Rattle.std.specs.Prelude.{◌≡◌, true};
ghost use Rattle.xp_base.specs.Points.{is_in};
ghost use Rattle.delivery_model.specs.Grids.{number_in};

use crate::at_point::AtPoint;
use crate::pixel_grid::PixelGrid;
use crate::point_set::PointSet;
use xp_base::Rect;

/// Of a rectangle's numbers the one at this point of the window.
#[tactic(auto, unfolding(delivery_model::specs::Grids::number_in))]
pub fn number_in(rect: Rect, numbers: &[u32], x: u32, y: u32) -> u32
    requires { is_in rect x y ≡ true }
    ensures { result ≡ number_in rect numbers.now x y }
{
    let place = u64::from(y - rect.y) * u64::from(rect.w) + u64::from(x - rect.x);
    match numbers.get(place as usize) {
        Some(number) => *number,
        None => 0,
    }
}

/// All points, or none.
#[derive(Clone, Copy)]
pub struct Everywhere {
    pub mark: bool,
}

impl AtPoint<bool> for Everywhere {
    ghost value = { λ t x y. t.mark };

    fn at(&self, x: u32, y: u32) -> bool {
        let _point = (x, y);
        self.mark
    }
}

/// The points of a set, and those of a rectangle.
#[derive(Clone, Copy)]
pub struct WithRect<'a> {
    pub set: &'a PointSet,
    pub rect: Rect,
}

impl AtPoint<bool> for WithRect<'_> {
    ghost use Rattle.std.specs.Prelude.{◌||◌};
    ghost use Rattle.xp_base.specs.Points.{is_in};
    ghost use Rattle.delivery_model.specs.Grids.{has};

    ghost value = { λ t x y. has t.set.now x y || is_in t.rect x y };

    fn at(&self, x: u32, y: u32) -> bool {
        self.set.has(x, y) || self.rect.contains(x, y)
    }
}

/// The points of a set that are not in a rectangle.
#[derive(Clone, Copy)]
pub struct WithoutRect<'a> {
    pub set: &'a PointSet,
    pub rect: Rect,
}

impl AtPoint<bool> for WithoutRect<'_> {
    ghost use Rattle.std.specs.Prelude.{◌&&◌, not};
    ghost use Rattle.xp_base.specs.Points.{is_in};
    ghost use Rattle.delivery_model.specs.Grids.{has};

    ghost value = { λ t x y. has t.set.now x y && not (is_in t.rect x y) };

    fn at(&self, x: u32, y: u32) -> bool {
        self.set.has(x, y) && !self.rect.contains(x, y)
    }
}

/// The points of a set that are in a rectangle.
#[derive(Clone, Copy)]
pub struct InRect<'a> {
    pub set: &'a PointSet,
    pub rect: Rect,
}

impl AtPoint<bool> for InRect<'_> {
    ghost use Rattle.std.specs.Prelude.{◌&&◌};
    ghost use Rattle.xp_base.specs.Points.{is_in};
    ghost use Rattle.delivery_model.specs.Grids.{has};

    ghost value = { λ t x y. is_in t.rect x y && has t.set.now x y };

    fn at(&self, x: u32, y: u32) -> bool {
        self.rect.contains(x, y) && self.set.has(x, y)
    }
}

/// The points of a relief, and the lossy ones in a rectangle.
#[derive(Clone, Copy)]
pub struct WithLossy<'a> {
    pub relief: &'a PointSet,
    pub lossy: &'a PointSet,
    pub rect: Rect,
}

impl AtPoint<bool> for WithLossy<'_> {
    ghost use Rattle.std.specs.Prelude.{◌&&◌, ◌||◌};
    ghost use Rattle.xp_base.specs.Points.{is_in};
    ghost use Rattle.delivery_model.specs.Grids.{has};

    ghost value = { λ t x y. has t.relief.now x y || (has t.lossy.now x y && is_in t.rect x y) };

    fn at(&self, x: u32, y: u32) -> bool {
        self.relief.has(x, y) || (self.lossy.has(x, y) && self.rect.contains(x, y))
    }
}

/// One number everywhere.
#[derive(Clone, Copy)]
pub struct OneNumber {
    pub number: u32,
}

impl AtPoint<u32> for OneNumber {
    ghost value = { λ t x y. t.number };

    fn at(&self, x: u32, y: u32) -> u32 {
        let _point = (x, y);
        self.number
    }
}

/// A window's numbers, with new ones in a rectangle, which are given for the whole window.
#[derive(Clone, Copy)]
pub struct Painted<'a> {
    pub desk: &'a PixelGrid,
    pub rect: Rect,
    pub numbers: &'a [u32],
}

impl AtPoint<u32> for Painted<'_> {
    ghost use Rattle.std.specs.Prelude.{slice_index, if◌then◌else◌};
    ghost use Rattle.xp_base.specs.Points.{is_in};
    ghost use Rattle.xp_base.specs.Grid.{place_of};
    ghost use Rattle.delivery_model.specs.Grids.{number};

    ghost value = { λ t x y. if is_in t.rect x y then slice_index t.numbers.now (place_of t.desk.now.wide x y) else number t.desk.now x y };

    fn at(&self, x: u32, y: u32) -> u32 {
        if !self.rect.contains(x, y) {
            return self.desk.number(x, y);
        }
        match self.numbers.get((y * self.desk.wide() + x) as usize) {
            Some(number) => *number,
            None => 0,
        }
    }
}

/// A window's numbers where both sizes have the point, else 0.
#[derive(Clone, Copy)]
pub struct Resized<'a> {
    pub desk: &'a PixelGrid,
}

impl AtPoint<u32> for Resized<'_> {
    ghost use Rattle.std.specs.Prelude.{if◌then◌else◌};
    ghost use Rattle.xp_base.specs.Points.{is_within};
    ghost use Rattle.delivery_model.specs.Grids.{number};

    ghost value = { λ t x y. if is_within t.desk.now.wide t.desk.now.high x y then number t.desk.now x y else 0 };

    fn at(&self, x: u32, y: u32) -> u32 {
        if x < self.desk.wide() && y < self.desk.high() {
            self.desk.number(x, y)
        } else {
            0
        }
    }
}

/// A rectangle's numbers.
#[derive(Clone, Copy)]
pub struct Cut<'a> {
    pub desk: &'a PixelGrid,
    pub rect: Rect,
}

impl AtPoint<u32> for Cut<'_> {
    ghost use Rattle.std.specs.Prelude.{◌+◌};
    ghost use Rattle.delivery_model.specs.Grids.{number};

    ghost value = { λ t i j. number t.desk.now (t.rect.x + i) (t.rect.y + j) };

    fn at(&self, x: u32, y: u32) -> u32 {
        let _area = self.rect.area();
        self.desk.number(self.rect.x + x, self.rect.y + y)
    }
}
