//! What of a window was damaged and waits for its capture.
#![tactic(auto)]

mod batch;
mod laws;

pub use batch::Batch;
pub use laws::{
    a_capture_takes_all, a_start_is_whole, damage_is_pending, delays_follow_the_load, due_is_told,
};
