//! The packets that wait to be written to one client, in order, and what their draws relieve.
#![tactic(auto)]

mod clipped;
mod draw;
mod laws;
mod out;
mod outbox;
mod packet;

pub use clipped::Clipped;
pub use draw::Draw;
pub use laws::{
    a_relief_ends_with_its_last_byte, bytes_go_out_in_order, clipped_reliefs_lie_inside,
    forgotten_reliefs_are_empty, only_reliefs_change,
};
pub use out::Out;
pub use outbox::Outbox;
pub use packet::Packet;
