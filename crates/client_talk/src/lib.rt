//! What a client has said, read from the bytes that it gave: whether its hello was accepted, what becomes of it packet
//! by packet until it ends, and which windows it maps. Here are definitions and what follows from them; the connection
//! that acts on the packets stands above.
#![tactic(auto)]

mod ending;
mod laws;

pub use ending::Ending;
pub use laws::{
    a_client_is_greeted_by_its_bytes, a_greeted_client_stays_so, a_mapped_window_is_marked,
    an_ending_has_its_cause, marks_follow_the_talk, marks_stay_true, the_talk_goes_on,
};
