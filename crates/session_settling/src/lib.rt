//! A session is settled: whoever comes is accepted, and each connection is brought to the last windows and closed.
#![tactic(auto)]

mod drawing;
mod reading;
mod rounds;
mod turns;
mod writing;

pub use turns::{How, close_all, settle};
