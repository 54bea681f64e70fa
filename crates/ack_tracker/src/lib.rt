//! The draws of one window that a client has not acknowledged, by their sequence numbers.
#![tactic(auto)]

mod ack;
mod acks;
mod laws;

pub use ack::Ack;
pub use acks::Acks;
pub use laws::{a_draw_is_found_by_its_number, one_draw_is_removed, the_greatest_number_goes_last};
