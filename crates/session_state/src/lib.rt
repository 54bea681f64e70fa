//! What a session keeps, and its steps in code: each is exactly the step that `session_steps` says.
#![tactic(auto)]

mod accept;
mod close;
mod draw;
mod paint;
mod prepare;
mod readers;
mod receive;
mod send;
mod state;
mod take_over;

pub use state::State;
