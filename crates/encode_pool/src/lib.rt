//! Encoding beside the session: a job and its encoding, the worker over a board of jobs, and the queue that carries jobs to
//! the workers.
#![tactic(auto)]

mod board;
mod encoding;
mod gate;
mod job_pass;
mod job_queue;
mod mem_board;
mod moves;
mod queue_calls;
mod queue_rule;
mod queue_view;
mod working;

pub use board::Desk2Work;
pub use encoding::encode_job;
pub use gate::{Gate, NoGate};
pub use job_pass::JobPass;
pub use job_queue::{CAPACITY, JobQueue};
pub use mem_board::MemBoard;
pub use moves::pool_types_move;
pub use queue_view::{QueueView, Standing};
pub use working::{Left, Worked, work};
