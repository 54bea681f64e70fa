// The pixels of a window or of a rectangle, row by row.
ghost use Rattle.std.specs.Prelude.{◌≡◌, ◌≤◌, IfOk};
ghost use Rattle.delivery_model.specs.Grids.{grid, number};

use crate::at_point::{AtPoint, each_point};
use std::alloc::{AllocError, Global};
use std::marker::Model;

/// A window's size and its pixel numbers. Sides are 1 to 4,096.
#[derive(Debug, Drop)]
pub struct PixelGrid {
    wide: u32,
    high: u32,
    numbers: Vec<u32>,
}

impl Model for PixelGrid {
    ghost use Rattle.std.specs.Prelude.{◌≤◌};
    ghost use Rattle.delivery_model.specs.Grids.{Grid};

    ghost Value = { Grid };

    ghost view = { λ g. record { wide = g.wide; high = g.high; numbers = g.numbers.items } };

    ghost invariant = { λ g. ((1 ≤ g.wide) × (g.wide ≤ 4096)) × ((1 ≤ g.high) × (g.high ≤ 4096)) };
}

impl PixelGrid {
    pub fn of<T: AtPoint<u32>>(
        alloc: Global,
        wide: u32,
        high: u32,
        numbers: &T,
    ) -> Result<PixelGrid, AllocError>
        requires some { 1 ≤ wide }
        requires wide { wide ≤ 4096 }
        requires any { 1 ≤ high }
        requires high { high ≤ 4096 }
        ensures { IfOk result (λ g. g ≡ grid wide high (T.value numbers.now)) }
    {
        let numbers = each_point(alloc, wide, high, numbers)?;
        Ok(PixelGrid {
            wide,
            high,
            numbers,
        })
    }

    pub fn copy(&self, alloc: Global) -> Result<PixelGrid, AllocError>
        ensures { IfOk result (λ copy. copy ≡ self.now) }
    {
        let numbers = Vec::from_slice(alloc, self.numbers.as_slice())?;
        Ok(PixelGrid {
            wide: self.wide,
            high: self.high,
            numbers,
        })
    }

    pub fn wide(&self) -> u32
        ensures value { result ≡ self.now.wide }
        ensures some { 1 ≤ result }
        ensures limit { result ≤ 4096 }
    {
        self.wide
    }

    pub fn high(&self) -> u32
        ensures value { result ≡ self.now.high }
        ensures some { 1 ≤ result }
        ensures limit { result ≤ 4096 }
    {
        self.high
    }

    /// The number at a point; 0 past the last.
    #[tactic(auto, unfolding(delivery_model::specs::Grids::number))]
    pub fn number(&self, x: u32, y: u32) -> u32
        ensures { result ≡ number self.now x y }
    {
        let place = u64::from(y) * u64::from(self.wide) + u64::from(x);
        match self.numbers.as_slice().get(place as usize) {
            Some(number) => *number,
            None => 0,
        }
    }
}
