//! One session: the paint lines of a script, the windows that they make, and the connections that see them. Its type keeps what
//! every session keeps.
#![tactic(auto)]

mod ending;
mod paint;
mod session;
mod steps;

pub use connection_ends::End;
pub use ending::{Abandoned, Calm};
pub use session::Session;
pub use session_settling::How;
pub use session_steps::{Accepted, Painted, Received, Sent};
