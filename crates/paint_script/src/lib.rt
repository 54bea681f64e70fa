//! Scripts: lines that paint the desktop, order peers and plan the session's steps. They are read from
//! text or generated, and each is valid after those before it.
#![tactic(auto)]

mod changes;
mod draws;
mod fault;
mod faults;
mod generation;
mod laws;
mod opening;
mod paints;
mod plan;
mod read;
mod reader;
mod reading;
mod script;

pub use fault::ScriptFault;
pub use generation::generate;
pub use laws::{
    desk_at_end, desk_at_next, desk_at_start, opened_numbers, paint_needs, painted_lines,
    script_paints, scripts_of_texts, valid_desks,
};
pub use paints::Paints;
pub use plan::first_plan_line;
pub use read::read_script;
pub use reading::ScriptRead;
pub use script::Script;
pub use script_lines::{Line, Paint, PlanLine, Why};
