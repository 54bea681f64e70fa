//! The desktop: windows from bottom to top, each with its pixels, and what paint lines do to them.
#![tactic(auto)]

mod desk;
mod generator;
mod geometry;
mod laws;
mod moves;
mod rows;
mod window;

pub use desk::Desk;
pub use generator::{Generator, noise_pixels};
pub use geometry::Geometry;
pub use laws::{
    blank_shows, changed_finds, copied_shows, cropped_shows, drawn_sizes, drawn_whole,
    effects_keep, filled_shows, numbers_kept, opened_finds, placed_shows, raised_finds,
    removed_finds, resized_shows,
};
pub use moves::window_types_move;
pub use window::Win;
