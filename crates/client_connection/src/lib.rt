//! What the server keeps of one open connection: what its client said that is not handled yet, the sources of its
//! windows, and the packets that wait to be written. Here is what each step does to one client, what the client's
//! picture of the bytes sent is, and that each pixel in which it differs from the desktop is owed.
#![tactic(auto)]

mod announce;
mod answers;
mod capture;
mod client;
mod ends;
mod geometry;
mod hearing;
mod laws;
pub mod messages;
mod owed;
mod packet;
mod points;
mod send;
mod source;
pub mod wire;

pub use answers::{Broken, Captured, Sent};
pub use client::Client;
pub use ends::{End, Trouble};
pub use geometry::Geometry;
pub use laws::{
    each_difference_is_owed, each_step_changes_owed_so, each_step_keeps_what_is_known,
    each_step_keeps_what_is_told, rectangle_marked, taken_gone, waiting_draws_are_current,
    what_a_client_gave, what_is_built_says_maps_alone, what_waits_lays_out_the_desktop,
    whole_marked,
};
pub use packet::{Announcement, Draw, Packet};
pub use points::Points;
pub use source::Source;
pub use xp_base::Text;
