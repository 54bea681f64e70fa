// Marks for points, row by row.
ghost use Rattle.std.specs.Prelude.{◌≡◌, ◌≤◌, ◌<◌, ℕ, Bool, IfOk};
ghost use Rattle.rect_regions.specs.BitRows.{marks_of};

use std::alloc::Global;
use xp_base::{NoMemory, Rect};

/// Whether a point is one of those meant.
pub trait PointTest {
    ghost test: { Self → ℕ → ℕ → Bool };

    fn test(&self, x: u32, y: u32) -> bool
        ensures { result ≡ test self.now x y };
}

impl PointTest for Rect {
    ghost use Rattle.xp_base.specs.Points.{is_in};

    ghost test = { is_in };

    fn test(&self, x: u32, y: u32) -> bool {
        self.contains(x, y)
    }
}

/// A mark for each point of `wide` by `high`.
#[tactic(auto, using(crate::proofs::Marks::one_more), unfolding(crate::specs::BitRows::marks_of))]
pub fn marks_of<T: PointTest>(
    alloc: Global,
    wide: u32,
    high: u32,
    points: &T,
) -> Result<Vec<bool>, NoMemory>
    requires some { 1 ≤ wide }
    requires wide { wide ≤ 4096 }
    requires high { high ≤ 4096 }
    ensures { IfOk result (λ marks. marks.items ≡ marks_of wide high (T.test points.now)) }
{
    let mut marks = Vec::with_capacity(alloc, (wide * high) as usize)?;
    for k in 0..wide * high {
        marks.push(points.test(k % wide, k / wide))?;
    }
    Ok(marks)
}
