// A set of points as bands of rectangles.
ghost use Rattle.std.specs.Prelude.{◌≡◌, IfOk, OnOk, OnErr, IsOk, length};
ghost use Rattle.xp_base.specs.Points.{is_in};
ghost use Rattle.rect_regions.specs.PointSets.{has, SamePoints, HasAll, united};
ghost use Rattle.rect_regions.specs.Bands.{IsBanded};
ghost use Rattle.rect_regions.specs.Combinations.{combined};
ghost use Rattle.rect_regions.specs.Sweeping.{IsSorted, IsCombined, Covers};

use crate::band_covers::{covers, covers_all};
use crate::band_search::has_point;
use crate::band_sums::{bounds_of, count_points};
use crate::combination::Combination;
use crate::operations::Points;
use crate::sweep::combine;
use std::alloc::Global;
use std::marker::Model;
use xp_base::{NoMemory, Rect, Rects};

/// A set of points as its row-band list. It takes memory for its rectangles alone, and equal sets are
/// equal values.
#[derive(Debug, Drop)]
pub struct Region {
    rects: Vec<Rect>,
}

impl Model for Region {
    ghost use Rattle.std.specs.Prelude.{List};
    ghost use Rattle.xp_base.specs.Points.{Rectangle};
    ghost use Rattle.rect_regions.specs.Bands.{IsBanded};

    ghost Value = { List Rectangle };

    ghost view = { λ r. r.rects.items };

    ghost invariant = { λ r. IsBanded r.rects.items };
}

impl Region {
    /// How many rectangles its row-band list has.
    pub fn pieces(&self) -> u32
        ensures pieces { result ≡ length self.now }
        ensures kept { IsBanded self.now }
    {
        let rects = self.list();
        rects.len() as u32
    }

    /// Its row-band list.
    fn list(&self) -> &[Rect]
        ensures list { result.now ≡ self.now }
        ensures kept { IsBanded self.now }
        ensures sorted { IsSorted self.now }
    {
        self.rects.as_slice()
    }

    /// The points of this set and of a list, so combined.
    fn combined(&self, combination: Combination, other: &[Rect]) -> Result<Region, NoMemory>
        requires { IsSorted other.now }
        ensures { IfOk result (λ r. IsCombined combination self.now other.now r) }
    {
        let rects = combine(*self.rects.allocator(), combination, self.list(), other)?;
        Ok(Region { rects })
    }

    /// The points of this set and of a rectangle, so combined.
    fn combined_rect(&self, combination: Combination, r: Rect) -> Result<Region, NoMemory>
        ensures { IfOk result (λ s. SamePoints (has s) (combined combination (has self.now) (is_in r))) }
    {
        self.combined(combination, &[r])
    }
}

impl Points for Region {
    ghost has = { has };

    fn new(alloc: Global) -> Region {
        Region {
            rects: Vec::new(alloc),
        }
    }

    fn has(&self, x: u32, y: u32) -> bool {
        has_point(self.list(), x, y)
    }

    fn count(&self) -> u64 {
        count_points(self.list())
    }

    fn bounds(&self) -> Option<Rect> {
        bounds_of(self.list())
    }

    fn clear(&mut self) {
        self.rects.clear();
    }

    /// With what is there already it finds memory, since it asks for none.
    fn union_rect(&mut self, r: Rect) -> Result<(), NoMemory>
        ensures ok { OnOk result (SamePoints (has self.new) (united (has self.old) (is_in r))) }
        ensures err { OnErr result (SamePoints (has self.new) (has self.old)) }
        ensures free { Covers (has self.old) r → IsOk result }
    {
        if covers(self.list(), r) {
            return Ok(());
        }
        *self = self.combined_rect(Combination::Union, r)?;
        Ok(())
    }

    /// With what is there already it finds memory, since it asks for none.
    fn union(&mut self, o: &Region) -> Result<(), NoMemory>
        ensures ok { OnOk result (SamePoints (has self.new) (united (has self.old) (has o.now))) }
        ensures err { OnErr result (SamePoints (has self.new) (has self.old)) }
        ensures free { HasAll (has self.old) (has o.now) → IsOk result }
    {
        if covers_all(self.list(), o.list()) {
            return Ok(());
        }
        *self = self.combined(Combination::Union, o.list())?;
        Ok(())
    }

    fn subtract_rect(&mut self, r: Rect) -> Result<(), NoMemory> {
        *self = self.combined_rect(Combination::Difference, r)?;
        Ok(())
    }

    fn clip(&mut self, r: Rect) -> Result<(), NoMemory> {
        *self = self.part(r)?;
        Ok(())
    }

    fn copy(&self) -> Result<Region, NoMemory> {
        let rects = Vec::from_slice(*self.rects.allocator(), self.list())?;
        Ok(Region { rects })
    }

    fn part(&self, r: Rect) -> Result<Region, NoMemory> {
        self.combined_rect(Combination::Overlap, r)
    }

    fn rects(&self) -> Result<Rects, NoMemory> {
        let rects = Vec::from_slice(*self.rects.allocator(), self.list())?;
        let list = Rects::new(rects);
        Ok(list)
    }
}
