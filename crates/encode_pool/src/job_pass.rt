// What a thread uses the queue of jobs by.
ghost use Rattle.std.specs.Prelude.{◌≢◌};
ghost use Rattle.crossbeam_queue.specs.Passes.{view};
ghost use Rattle.encode_pool.specs.declared.queue_view.Standing.TheVariants.{Spent};

use crate::queue_view::QueueView;
use capture_jobs::Job;
use crossbeam_queue::Pass;

/// What a thread uses the queue of jobs by: the first pass, which pushes, or a further one. It was not
/// taken in by another.
#[derive(Drop)]
pub struct JobPass {
    pub(crate) pass: Pass<Job, QueueView>,
    ghost live: { (view pass).standing ≢ Spent },
}
