// Sets of points of one window, by a mark for each.
ghost use Rattle.std.specs.Prelude.{◌≡◌, ◌≤◌, IfOk};
ghost use Rattle.std.specs.List.{list_any};
ghost use Rattle.delivery_model.specs.Grids.{points, has};
ghost use Rattle.delivery_model.specs.Events.{is_empty};

use crate::at_point::{AtPoint, each_point};
use std::alloc::{AllocError, Global};
use std::marker::Model;

/// Points of a window, of any size that windows have.
#[derive(Debug, Drop)]
pub struct PointSet {
    wide: u32,
    high: u32,
    marks: Vec<bool>,
}

impl Model for PointSet {
    ghost use Rattle.delivery_model.specs.Grids.{Points};

    ghost Value = { Points };

    ghost view = { λ p. record { wide = p.wide; high = p.high; marks = p.marks.items } };
}

impl PointSet {
    pub fn of<T: AtPoint<bool>>(
        alloc: Global,
        wide: u32,
        high: u32,
        test: &T,
    ) -> Result<PointSet, AllocError>
        requires some { 1 ≤ wide }
        requires wide { wide ≤ 4096 }
        requires high { high ≤ 4096 }
        ensures { IfOk result (λ p. p ≡ points wide high (T.value test.now)) }
    {
        let marks = each_point(alloc, wide, high, test)?;
        Ok(PointSet { wide, high, marks })
    }

    pub fn copy(&self, alloc: Global) -> Result<PointSet, AllocError>
        ensures { IfOk result (λ copy. copy ≡ self.now) }
    {
        let marks = Vec::from_slice(alloc, self.marks.as_slice())?;
        Ok(PointSet {
            wide: self.wide,
            high: self.high,
            marks,
        })
    }

    #[tactic(auto, unfolding(delivery_model::specs::Grids::has))]
    pub fn has(&self, x: u32, y: u32) -> bool
        ensures { result ≡ has self.now x y }
    {
        if x >= self.wide || y >= self.high {
            return false;
        }
        let place = u64::from(y) * u64::from(self.wide) + u64::from(x);
        match self.marks.as_slice().get(place as usize) {
            Some(mark) => *mark,
            None => false,
        }
    }

    #[tactic(auto, unfolding(delivery_model::specs::Events::is_empty))]
    pub fn is_empty(&self) -> bool
        ensures { result ≡ is_empty self.now }
    {
        !any_mark(self.marks.as_slice())
    }
}

fn any_mark(marks: &[bool]) -> bool
    ensures { result ≡ list_any (λ m. m) marks.now }
{
    marks.iter().any(|mark| *mark)
}
