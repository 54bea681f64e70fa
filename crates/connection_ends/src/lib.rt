//! How a connection ended, and what each end means, read from what the provider knows of the connections.
#![tactic(auto)]

mod end;
mod laws;

pub use end::End;
pub use laws::{causes_count_from_earlier, causes_stay, only_settled_speaks_of_the_desktop};
