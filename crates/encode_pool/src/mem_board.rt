// A board in memory.
ghost use Rattle.std.specs.Prelude.{◌≡◌};
ghost use Rattle.encode_pool.specs.Board.{TakeGives, FileGives, StopGives};
ghost use Rattle.encode_pool.specs.MemBoard.{new_board, MemoryTakes, MemoryFiles, MemoryStops};

use crate::board::Desk2Work;
use capture_jobs::{Done, Filed, Job, Taken};
use std::alloc::Global;
use std::collections::VecDeque;
use std::marker::Model;
use std::snapshot::Snapshot;
use std::sync::Wait;

/// A board of jobs in a list, which keeps the results in the order in which they are filed.
#[derive(Drop)]
pub struct MemBoard {
    waiting: VecDeque<Job>,
    results: Vec<Done>,
    /// The filings, counted from 1, that find no memory.
    failing: Vec<u64>,
    /// The look, counted from 1, at which it tells the worker to stop.
    stopping: u64,
    held: Option<Snapshot<Job>>,
    taken: u64,
    filed: u64,
    filings: u64,
    looks: u64,
    nothings: u64,
    stops: u64,
}

impl Model for MemBoard {
    ghost use Rattle.std.specs.Option.{option_map};
    ghost use Rattle.encode_pool.specs.Board.{handed_out};
    ghost use Rattle.encode_pool.specs.MemBoard.{BoardInMemory};

    ghost Value = { BoardInMemory };

    ghost view = { λ b. record {
      board = record { held = option_map (λ job. handed_out job.value) b.held; taken = b.taken; filed = b.filed; nothings = b.nothings; stops = b.stops };
      waiting = b.waiting.items;
      results = b.results.items;
      failing = b.failing.items;
      stopping = b.stopping;
      filings = b.filings;
      looks = b.looks;
    } };
}

impl MemBoard {
    /// A board with these jobs. The filings in `failing`, counted from 1, find no memory. At look number
    /// `stopping`, counted from 1, it tells the worker to stop.
    pub fn new(alloc: Global, waiting: VecDeque<Job>, failing: Vec<u64>, stopping: u64) -> MemBoard
        ensures { result ≡ new_board waiting.items failing.items stopping }
    {
        MemBoard {
            waiting,
            results: Vec::new(alloc),
            failing,
            stopping,
            held: None,
            taken: 0,
            filed: 0,
            filings: 0,
            looks: 0,
            nothings: 0,
            stops: 0,
        }
    }

    /// What was filed, in order.
    pub fn results(&self) -> &[Done]
        ensures { result.now ≡ self.now.results }
    {
        self.results.as_slice()
    }
}

impl Desk2Work for MemBoard {
    ghost board = { λ b. b.board };

    fn take_job<R: Wait>(&mut self, _rt: &R) -> Taken
        ensures board { TakeGives self.old.board self.new.board result }
        ensures memory { MemoryTakes self.old self.new result }
    {
        let Some(job) = self.waiting.pop_front() else {
            self.nothings = self.nothings.saturating_add(1);
            return Taken::Nothing;
        };
        self.held = Some(Snapshot::of(&job));
        self.taken = self.taken.saturating_add(1);
        Taken::Job(job)
    }

    fn file<R: Wait>(&mut self, _rt: &R, done: Done) -> Filed
        ensures board { FileGives self.old.board self.new.board done result }
        ensures memory { MemoryFiles self.old self.new done result }
    {
        self.filings = self.filings.saturating_add(1);
        if self.failing.contains(&self.filings) || self.results.reserve(1).is_err() {
            return Filed::Back(done);
        }
        self.results.push_reserved(done);
        self.held = None;
        self.filed = self.filed.saturating_add(1);
        Filed::Filed
    }

    fn stopped<R: Wait>(&mut self, _rt: &R) -> bool
        ensures board { StopGives self.old.board self.new.board result }
        ensures memory { MemoryStops self.old self.new result }
    {
        self.looks = self.looks.saturating_add(1);
        if self.looks != self.stopping {
            return false;
        }
        self.stops = self.stops.saturating_add(1);
        true
    }
}
