//! What a paint line is to every client: the change of the desktop that it makes.
#![tactic(auto)]

mod change;
mod desktop;
mod laws;

pub use change::change_of;
pub use desktop::paint_desk;
pub use laws::{a_line_changes_the_desktop_so, a_line_opens_its_number};
