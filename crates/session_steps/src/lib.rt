//! The steps of a session as relations between what it keeps before and after, what every session keeps, and that each
//! step keeps it. Here are definitions and laws; the session that takes the steps stands above.
#![tactic(auto)]

mod answers;
mod laws;
mod settling;

pub use answers::{Accepted, Painted, Received, Sent};
pub use laws::{
    a_paint_line_keeps_a_session, a_read_keeps_a_session, a_session_begins_steady,
    a_write_keeps_a_session, an_accept_keeps_a_session, sessions_owe_what_differs,
};
pub use settling::{
    drawing_keeps_a_session, ends_of_settling_have_causes, settling_keeps_a_session,
    windows_drawn_at_once_are_drawn_by_acts,
};
