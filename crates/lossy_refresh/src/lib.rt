//! What of a window is shown by lossy draws and has to be drawn again exactly.
#![tactic(auto)]

mod laws;
mod lossy;

pub use laws::{
    a_resize_keeps_what_is_in_it, a_start_is_exact, draws_are_the_models, due_is_told,
    the_last_draw_decides,
};
pub use lossy::Lossy;
