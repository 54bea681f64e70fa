//! Sets of points of a window: as rows of bits, and as bands of rectangles.
#![tactic(auto)]

mod band_covers;
mod band_search;
mod band_sums;
mod bands;
mod bit_rects;
mod bit_region;
mod bit_rows;
mod bounding;
mod combination;
mod laws;
mod moves;
mod operations;
mod region;
mod run_merge;
mod stretches;
mod sweep;

pub use bit_region::BitRegion;
pub use laws::{equal_by_points, one_row_band_list};
pub use moves::region_types_move;
pub use operations::Points;
pub use region::Region;
