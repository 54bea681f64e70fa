//! What a capture takes: its plan, the pixels of each rectangle, and the jobs that carry them to the encoders and back.
#![tactic(auto)]

mod answers;
mod capturing;
mod done;
mod job;
mod job_lists;
mod laws;
mod moves;
mod plan_list;
mod planned;
mod planning;

pub use answers::{Filed, Taken};
pub use capturing::capture;
pub use done::Done;
pub use job::Job;
pub use job_lists::{Held, NewJobs};
pub use laws::{plans_are_short, plans_are_the_models};
pub use moves::job_types_move;
pub use plan_list::Plan;
pub use planned::Planned;
pub use planning::{MOST_RECTANGLES, plan};
