// That the types here may move between threads, and be shared by them.
use crate::gate::NoGate;
use crate::job_pass::JobPass;
use crate::job_queue::JobQueue;
use crate::mem_board::MemBoard;
use crate::working::{Left, Worked};
use xp_base::moves_between_threads;

/// A call at a type shows that threads may share its values. It does nothing.
pub fn shared_by_threads<T: Sync>() {}

/// Shows it of the types here.
pub fn pool_types_move() {
    moves_between_threads::<Left>();
    moves_between_threads::<Worked>();
    moves_between_threads::<JobPass>();
    moves_between_threads::<JobQueue>();
    shared_by_threads::<JobQueue>();
    shared_by_threads::<NoGate>();
}
