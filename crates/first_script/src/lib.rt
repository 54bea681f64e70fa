//! Scripts: lines that paint the desktop and order peers, read from text, and what paint lines do to
//! the desktop.
#![tactic(auto)]

mod fault;
mod forms;
mod laws;
mod line;
mod numbers;
mod opening;
mod paint;
mod paints;
mod read;
mod reader;
mod reading;
mod script;
mod text;

pub use fault::{ScriptFault, Why};
pub use laws::{
    desk_at_end, desk_at_next, desk_at_start, scripts_of_texts, valid_desks, valid_scripts,
};
pub use line::Line;
pub use paint::Paint;
pub use paints::Paints;
pub use read::read_script;
pub use reading::ScriptRead;
pub use script::Script;
