// Sets of points of a window.
ghost use Rattle.std.specs.Prelude.{◌≡◌, ◌≤◌, ◌<◌, ◌+◌, ◌*◌, ◌↔◌, ◌&&◌, ◌||◌, nat_le, nat_lt, ℕ, IsTrue, IfOk, false, length, slice_index_or};
ghost use Rattle.xp_base.specs.Grid.{is_place_in};
ghost use Rattle.client_connection.specs.PointSets.{PointSet, with_rectangle, has, whole_set, HasNone};

use std::alloc::Global;
use std::marker::Model;
use xp_base::{NoMemory, Rect};

/// A set of points of a window, kept as a mark for each point, row by row from the top.
#[derive(Debug, Drop)]
pub struct Points {
    w: u32,
    h: u32,
    marks: Vec<bool>,
}

impl Model for Points {
    ghost use Rattle.client_connection.specs.PointSets.{PointSet, IsPointSet};

    ghost Value = { PointSet };

    ghost view = { λ p. record { w = p.w; h = p.h; marks = p.marks.items } };

    ghost invariant = { λ p. IsPointSet (record { w = p.w; h = p.h; marks = p.marks.items }) };
}

impl Points {
    /// All points of a window of this size, or none of them.
    pub fn new(alloc: Global, w: u32, h: u32, all: bool) -> Result<Points, NoMemory>
        requires wide { w ≤ 4096 }
        requires high { h ≤ 4096 }
        ensures { IfOk result (λ points. points ≡ whole_set w h all) }
    {
        Ok(Points {
            w,
            h,
            marks: vec![in alloc; all; (w * h) as usize]?,
        })
    }

    /// Whether the point is in the set; no point outside the window is.
    pub fn has(&self, x: u32, y: u32) -> bool
        ensures { result ≡ has self.now x y }
    {
        x < self.w && y < self.h && self.marks[(y * self.w + x) as usize]
    }

    /// Whether no point is in the set.
    pub fn is_empty(&self) -> bool
        ensures { IsTrue result ↔ HasNone self.now }
    {
        !self.marks.contains(&true)
    }

    /// Adds the points of a rectangle that lie in the window.
    pub fn add(&mut self, r: Rect)
        ensures { self.new ≡ with_rectangle r self.old }
    {
        mark_rows(&mut self.marks, self.w, self.h, r);
    }
}

/// Marks what of the rectangle lies in a window of this size.
fn mark_rows(marks: &mut Vec<bool>, wide: u32, high: u32, r: Rect)
    requires wide { wide ≤ 4096 }
    requires high { high ≤ 4096 }
    requires sized { length marks.old.items ≡ wide * high }
    ensures sized { length marks.new.items ≡ length marks.old.items }
    ensures each { (k : ℕ) → k < length marks.old.items
        → slice_index_or marks.new.items k false ≡ (is_place_in wide r k || slice_index_or marks.old.items k false) }
{
    let start = r.x.min(wide);
    let count = (r.x + r.w).min(wide) - start;
    let first = r.y.min(high);
    let rows = (r.y + r.h).min(high) - first;
    for row in 0..rows {
        mark_run(
            marks,
            ((first + row) * wide + start) as usize,
            count as usize,
        );
    }
}

fn mark_run(marks: &mut Vec<bool>, start: usize, count: usize)
    requires { start + count ≤ length marks.old.items }
    ensures sized { length marks.new.items ≡ length marks.old.items }
    ensures run { (k : ℕ) → k < length marks.old.items
        → slice_index_or marks.new.items k false ≡ ((nat_le start k && nat_lt k (start + count)) || slice_index_or marks.old.items k false) }
{
    for i in 0..count {
        marks[start + i] = true;
    }
}
