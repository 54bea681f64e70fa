//! One line of a script by itself: its words, what they stand for, and the line that they are or its
//! fault.
#![tactic(auto)]

mod arguments;
mod forms;
mod kinds;
mod laws;
mod line;
mod numbers;
mod paint;
mod paint_forms;
mod peer_forms;
mod plan;
mod plan_forms;
mod reading;
mod text;
mod why;

pub use forms::read_line;
pub use laws::lines_in_range;
pub use line::Line;
pub use paint::Paint;
pub use plan::PlanLine;
pub use reading::LineError;
pub use text::first_line;
pub use why::Why;
