// That the types here may move between threads.
use crate::answers::{Filed, Taken};
use crate::done::Done;
use crate::job::Job;
use crate::job_lists::{Held, NewJobs};
use crate::plan_list::Plan;
use xp_base::moves_between_threads;

/// Shows it of the types here. It does nothing.
pub fn job_types_move() {
    moves_between_threads::<Plan>();
    moves_between_threads::<Job>();
    moves_between_threads::<Done>();
    moves_between_threads::<Taken>();
    moves_between_threads::<Filed>();
    moves_between_threads::<NewJobs>();
    moves_between_threads::<Held>();
}
