//! The session: its steps, and what settles it.
#![tactic(auto)]

mod abandon;
mod accept;
mod answers;
mod capture;
mod connections;
mod opening;
mod owed;
mod paint;
mod receive;
mod rounds;
mod send;
mod settle;
mod settle_turn;
mod state;

pub use abandon::Abandoned;
pub use answers::{Accepted, Painted, Received};
pub use client_connection::{Captured, End, Sent, Text};
pub use settle::{Calm, How};
pub use state::Session;
