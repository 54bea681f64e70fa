// Lists with an item for each point of a rectangle, row by row.
ghost use Rattle.std.specs.Prelude.{◌≡◌, ◌≤◌, ◌<◌, ℕ, IfOk};
ghost use Rattle.delivery_model.specs.Grids.{each_point};

use std::alloc::{AllocError, Global};

/// A value for each point.
pub trait AtPoint<A> {
    ghost value: { Self → ℕ → ℕ → A };

    fn at(&self, x: u32, y: u32) -> A
        requires across { x < 4096 }
        requires down { y < 4096 }
        ensures { result ≡ value self.now x y };
}

/// The values at the points of `wide` by `high`.
#[tactic(auto, using(crate::proofs::Loops::one_more, crate::proofs::Loops::row_below), unfolding(delivery_model::specs::Grids::each_point))]
pub fn each_point<A: Copy + Drop, T: AtPoint<A>>(
    alloc: Global,
    wide: u32,
    high: u32,
    values: &T,
) -> Result<Vec<A>, AllocError>
    requires some { 1 ≤ wide }
    requires wide { wide ≤ 4096 }
    requires high { high ≤ 4096 }
    ensures { IfOk result (λ v. v.items ≡ each_point wide high (T.value values.now)) }
{
    let mut items = Vec::new(alloc);
    for k in 0..wide * high {
        items.push(values.at(k % wide, k / wide))?;
    }
    Ok(items)
}
