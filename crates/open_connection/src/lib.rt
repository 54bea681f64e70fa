//! A connection that is open: what of its bytes is no whole packet yet and, once its hello was accepted, its client.
#![tactic(auto)]

mod client;
mod connection;
mod heard;
mod laws;
mod step;

pub use connection::Connection;
pub use heard::Heard;
pub use laws::{
    a_change_keeps_a_connection, hearing_keeps_what_is_told, what_is_heard_is_what_was_given,
};
