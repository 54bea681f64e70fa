// The queue that carries jobs to the encoders.
ghost use Rattle.std.specs.Prelude.{◌≡◌};

use crate::queue_rule::JobRule;
use crate::queue_view::QueueView;
use capture_jobs::Job;
use crossbeam_queue::RuledArrayQueue;

/// How many jobs the queue holds at most.
pub const CAPACITY: usize = 256;

/// A queue of jobs between threads. Each job that was pushed was popped or is left, as often as it was
/// pushed: the passes by which it is used tell so when they are joined.
#[derive(Drop)]
pub struct JobQueue {
    pub(crate) queue: RuledArrayQueue<Job, QueueView, JobRule>,
    ghost sized: { queue.cap ≡ 256 },
}
