//! Connections by their numbers: what is kept of an open one, and how one ended that is not open any more.
#![tactic(auto)]

mod laws;
mod place;
mod places;
mod table;

pub use laws::all_ended;
pub use table::Table;
