// A worker.
ghost use Rattle.encode_pool.specs.Board.{IsFree};
ghost use Rattle.encode_pool.specs.Working.{WorkGives};

use crate::board::Desk2Work;
use crate::encoding::encode_job;
use crate::gate::Gate;
use capture_jobs::{Done, Filed, Job, Taken};
use std::alloc::Global;
use std::sync::Wait;

/// What a worker still has that ends before its job is filed.
#[derive(Drop)]
pub enum Left {
    /// The job, not encoded.
    Job(Job),
    /// The job with its encoding.
    Done(Done),
}

/// Why a worker ended.
#[derive(Drop)]
pub enum Worked {
    /// No job was left. So many were taken and filed.
    Out(u64),
    /// No memory was to be had for the encoding, or for the filing.
    NoMemory(Left),
    /// The board told it to stop. It has the result of the last job that it took.
    Stopped(Left),
}

/// Takes a job, encodes it and files it, and then the next one, until the board has none. The gate is
/// called before and after each encoding, and after that the board is asked whether to stop.
pub fn work<D: Desk2Work, G: Gate, R: Wait>(
    rt: &R,
    alloc: Global,
    board: &mut D,
    gate: &G,
) -> Worked
    requires { IsFree (D.board board.old) }
    ensures { WorkGives (D.board board.old) (D.board board.new) result }
{
    let mut filed: u64 = 0;
    for _ in rt.forever() {
        let Taken::Job(job) = board.take_job(rt) else {
            return Worked::Out(filed);
        };
        let id = job.id();
        gate.before(rt, id);
        let done = match encode_job(alloc, job) {
            Ok(done) => done,
            Err(job) => return Worked::NoMemory(Left::Job(job)),
        };
        gate.after(rt, id);
        if board.stopped(rt) {
            return Worked::Stopped(Left::Done(done));
        }
        if let Filed::Back(done) = board.file(rt, done) {
            return Worked::NoMemory(Left::Done(done));
        }
        filed = filed.saturating_add(1);
    }
    unreachable!()
}
