// Where a worker finds its jobs.
ghost use Rattle.encode_pool.specs.Board.{IsFree, IsHeld, TakeGives, FileGives, StopGives};

use capture_jobs::{Done, Filed, Taken};
use std::sync::Wait;

/// Where a worker takes jobs and files results. What its clauses do not name stays as it was.
pub trait Desk2Work {
    ghost use Rattle.encode_pool.specs.Board.{Board};

    /// What was handed out and is not filed yet, and how often what was answered.
    ghost board: { Self → Board };

    /// Hands a job out, or tells that there is none. Nothing may be held.
    fn take_job<R: Wait>(&mut self, rt: &R) -> Taken
        requires { IsFree (board self.old) }
        ensures { TakeGives (board self.old) (board self.new) result };

    /// Takes the result of the job that is held.
    fn file<R: Wait>(&mut self, rt: &R, done: Done) -> Filed
        requires { IsHeld (board self.old) done }
        ensures { FileGives (board self.old) (board self.new) done result };

    /// Whether the worker is to stop.
    fn stopped<R: Wait>(&mut self, rt: &R) -> bool
        ensures { StopGives (board self.old) (board self.new) result };
}
