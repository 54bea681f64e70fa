// A set of points as rows of truth values.
ghost use Rattle.std.specs.Prelude.{◌≡◌, ◌≤◌, ◌<◌, ℕ, IfOk, if◌then◌else◌};
ghost use Rattle.xp_base.specs.Points.{is_in};
ghost use Rattle.rect_regions.specs.PointSets.{SamePoints, count_row};
ghost use Rattle.rect_regions.specs.Combinations.{combined};
ghost use Rattle.rect_regions.specs.BitRows.{IsBitRows, has_mark, IsSize, AllWithin, MarksCombined};

use crate::bands::join_band;
use crate::bit_rects::append_row;
use crate::bit_rows::{PointTest, marks_of};
use crate::bounding::with_point;
use crate::combination::Combination;
use crate::operations::Points;
use std::alloc::Global;
use std::marker::Model;
use xp_base::{NoMemory, Rect, Rects};

/// A set of points by a mark for each point, in rows as wide and as many as the rectangles so far
/// reached: the plain form of `Region`, against which that is tested.
#[derive(Debug, Drop)]
pub struct BitRegion {
    wide: u32,
    high: u32,
    marks: Vec<bool>,
}

impl Model for BitRegion {
    ghost use Rattle.rect_regions.specs.BitRows.{BitRows, IsBitRows};

    ghost Value = { BitRows };

    ghost view = { λ b. record { wide = b.wide; high = b.high; marks = b.marks.items } };

    ghost invariant = { λ b. IsBitRows (record { wide = b.wide; high = b.high; marks = b.marks.items }) };
}

/// What is to become of the points of the one set and of those that another test has.
#[derive(Drop)]
struct Combined<'a, T: PointTest> {
    combination: Combination,
    one: &'a BitRegion,
    other: &'a T,
}

impl PointTest for BitRegion {
    ghost test = { has_mark };

    #[tactic(auto, unfolding(crate::specs::BitRows::has_mark))]
    fn test(&self, x: u32, y: u32) -> bool {
        if x >= self.wide || y >= self.high {
            return false;
        }
        let place = y * self.wide + x;
        match self.marks.as_slice().get(place as usize) {
            Some(mark) => *mark,
            None => false,
        }
    }
}

impl<T: PointTest> PointTest for Combined<'_, T> {
    ghost test = { λ c x y. combined c.combination (has_mark c.one.now) (T.test c.other.now) x y };

    fn test(&self, x: u32, y: u32) -> bool {
        let one = self.one.test(x, y);
        let other = self.other.test(x, y);
        self.combination.keeps(one, other)
    }
}

impl BitRegion {
    /// How many columns are kept.
    pub(crate) fn wide(&self) -> u32
        ensures value { result ≡ self.now.wide }
        ensures kept { IsBitRows self.now }
    {
        self.wide
    }

    /// How many rows are kept.
    pub(crate) fn high(&self) -> u32
        ensures value { result ≡ self.now.high }
        ensures kept { IsBitRows self.now }
    {
        self.high
    }

    /// The points of this set and of others, so combined, in so many columns and rows, which hold them
    /// all.
    fn combined<T: PointTest>(
        &self,
        combination: Combination,
        other: &T,
        wide: u32,
        high: u32,
    ) -> Result<BitRegion, NoMemory>
        requires size { IsSize wide high }
        requires all { AllWithin wide high (combined combination (has_mark self.now) (T.test other.now)) }
        ensures { IfOk result (MarksCombined combination (has_mark self.now) (T.test other.now)) }
    {
        let points = Combined {
            combination,
            one: self,
            other,
        };
        let marks = marks_of(*self.marks.allocator(), wide, high, &points)?;
        Ok(BitRegion { wide, high, marks })
    }

    /// How many points a row has.
    #[tactic(auto, using(crate::proofs::Counts::sum_below_none, crate::proofs::Counts::sum_below_more, crate::proofs::Counts::sum_below_few))]
    fn count_row(&self, y: u32) -> u32
        ensures value { result ≡ count_row self.now.wide (has_mark self.now) y }
        ensures few { result ≤ 4096 }
    {
        let wide = self.wide();
        let mut count = 0;
        for x in 0..wide {
            if self.test(x, y) {
                count += 1;
            }
        }
        count
    }
}

impl Points for BitRegion {
    ghost has = { has_mark };

    #[tactic(auto, using(crate::proofs::Marks::no_mark_below))]
    fn new(alloc: Global) -> BitRegion {
        BitRegion {
            wide: 1,
            high: 0,
            marks: Vec::new(alloc),
        }
    }

    #[tactic(auto, using(crate::proofs::Marks::marks_limited))]
    fn has(&self, x: u32, y: u32) -> bool {
        // For the proof: what the type keeps.
        let _wide = self.wide();
        self.test(x, y)
    }

    #[tactic(auto, using(crate::proofs::Counts::sum_below_none, crate::proofs::Counts::sum_below_more))]
    fn count(&self) -> u64 {
        let high = self.high();
        let mut count = 0;
        for y in 0..high {
            count += u64::from(self.count_row(y));
        }
        count
    }

    fn bounds(&self) -> Option<Rect> {
        let wide = self.wide();
        let high = self.high();
        let mut bounds = None;
        for k in 0..wide * high {
            let x = k % wide;
            let y = k / wide;
            if self.test(x, y) {
                bounds = Some(with_point(bounds, x, y));
            }
        }
        bounds
    }

    #[tactic(auto, using(crate::proofs::Marks::no_mark_below))]
    fn clear(&mut self) {
        self.high = 0;
        self.marks.clear();
    }

    fn union_rect(&mut self, r: Rect) -> Result<(), NoMemory> {
        let own_wide = self.wide();
        let own_high = self.high();
        let wide = own_wide.max(r.x + r.w);
        let high = own_high.max(r.y + r.h);
        *self = self.combined(Combination::Union, &r, wide, high)?;
        Ok(())
    }

    fn union(&mut self, o: &BitRegion) -> Result<(), NoMemory> {
        let own_wide = self.wide();
        let own_high = self.high();
        let other_wide = o.wide();
        let other_high = o.high();
        let wide = own_wide.max(other_wide);
        let high = own_high.max(other_high);
        *self = self.combined(Combination::Union, o, wide, high)?;
        Ok(())
    }

    fn subtract_rect(&mut self, r: Rect) -> Result<(), NoMemory> {
        let wide = self.wide();
        let high = self.high();
        *self = self.combined(Combination::Difference, &r, wide, high)?;
        Ok(())
    }

    fn clip(&mut self, r: Rect) -> Result<(), NoMemory> {
        *self = self.part(r)?;
        Ok(())
    }

    fn copy(&self) -> Result<BitRegion, NoMemory> {
        let marks = Vec::from_slice(*self.marks.allocator(), self.marks.as_slice())?;
        Ok(BitRegion {
            wide: self.wide,
            high: self.high,
            marks,
        })
    }

    fn part(&self, r: Rect) -> Result<BitRegion, NoMemory> {
        let wide = self.wide();
        let high = self.high();
        self.combined(Combination::Overlap, &r, wide, high)
    }

    fn rects(&self) -> Result<Rects, NoMemory> {
        let high = self.high();
        let mut rects = Vec::new(*self.marks.allocator());
        let mut last = 0;
        for y in 0..high {
            let start = rects.len();
            append_row(&mut rects, self, y)?;
            last = join_band(&mut rects, last, start, y, y + 1);
        }
        let list = Rects::new(rects);
        Ok(list)
    }
}
