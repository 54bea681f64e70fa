//! Small windows point by point: grids of pixel numbers, sets of points, and how new ones are made of
//! those that are there.
#![tactic(auto)]

mod at_point;
mod pixel_grid;
mod point_set;
mod selections;

pub use at_point::{AtPoint, each_point};
pub use pixel_grid::PixelGrid;
pub use point_set::PointSet;
pub use selections::{
    Cut, Everywhere, InRect, OneNumber, Painted, Resized, WithLossy, WithRect, WithoutRect,
    number_in,
};
