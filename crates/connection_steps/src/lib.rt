//! What is kept of a connection that is open, beside what its provider knows of it, and that each step keeps it. Here are
//! definitions and what follows from them; the session that takes the steps stands above.
#![tactic(auto)]

mod laws;
mod resting;

pub use laws::{
    a_paint_line_keeps_a_connection, a_refused_client_gets_its_goodbye, a_write_keeps_a_connection,
    an_accepted_connection_is_kept, an_attached_client_has_greeted, differing_pixels_are_owed,
    hearing_keeps_a_connection, what_ends_a_talk_was_given,
};
pub use resting::a_client_at_rest_shows_the_desktop;
