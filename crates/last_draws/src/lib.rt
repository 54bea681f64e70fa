//! What is left to be drawn of a client's window is drawn at once.
#![tactic(auto)]

mod drawing;

pub use drawing::draw_window;
