//! The texts that a run prints: the report of its windows and ends, and faults.
#![tactic(auto)]

mod ends;
mod faults;
mod report;

pub use ends::write_end;
pub use faults::{write_hello_fault, write_talk_fault};
pub use report::{write_report, write_windows};
