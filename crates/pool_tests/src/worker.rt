// The worker over a board in memory.
ghost use Rattle.std.specs.Prelude.{IfOk};
ghost use Rattle.encode_pool.specs.Board.{IsFree};

use crate::samples::{capture_of, job_of};
use capture_jobs::{Done, Job};
use encode_pool::{Gate, Left, MemBoard, NoGate, Worked, work};
use std::alloc::Global;
use std::collections::VecDeque;
use std::fmt::Write;
use std::sync::Wait;
use std::sync::atomic::{AtomicU64, Ordering};
use std::test::Fail;
use xp_base::{Coding, JobId};

/// What the jobs 1, 2 and 3 captured: one pixel of this colour, in this coding.
const JOBS: &[(Coding, u32)] = &[
    (Coding::Exact, 0x102030),
    (Coding::Lossy, 0x102030),
    (Coding::Exact, 0xff0000),
];

/// How many jobs wait, the filings that find no memory, the look at which the worker is told to stop, how
/// it ended with what, and what was filed; and the calls of the gate: of each the job's number, and 1
/// before its encoding or 2 after it.
const WORK: &[(usize, &[u64], u64, &str, u64)] = &[
    (0, &[], 0, "out 0;", 0),
    (1, &[], 0, "out 1; 1: 48 32 16 255", 1112),
    (
        3,
        &[],
        0,
        "out 3; 1: 48 32 16 255 2: 6 17 3: 0 0 255 255",
        111_221_223_132,
    ),
    (3, &[1], 0, "no memory 1: 48 32 16 255;", 1112),
    (
        3,
        &[3],
        0,
        "no memory 3: 0 0 255 255; 1: 48 32 16 255 2: 6 17",
        111_221_223_132,
    ),
    (
        3,
        &[4],
        4,
        "out 3; 1: 48 32 16 255 2: 6 17 3: 0 0 255 255",
        111_221_223_132,
    ),
    (3, &[], 1, "stopped 1: 48 32 16 255;", 1112),
    (3, &[2], 2, "stopped 2: 6 17; 1: 48 32 16 255", 11_122_122),
    (2, &[], 3, "out 2; 1: 48 32 16 255 2: 6 17", 11_122_122),
];

/// Notes its calls, two digits each.
#[derive(Drop)]
struct Calls(AtomicU64);

impl Calls {
    fn note(&self, id: JobId, when: u64) {
        let before = self.0.load(Ordering::SeqCst);
        let digits = id.0.wrapping_mul(10).wrapping_add(when);
        self.0.store(
            before.wrapping_mul(100).wrapping_add(digits),
            Ordering::SeqCst,
        );
    }
}

impl Gate for Calls {
    fn before<R: Wait>(&self, _rt: &R, id: JobId) {
        self.note(id, 1);
    }

    fn after<R: Wait>(&self, _rt: &R, id: JobId) {
        self.note(id, 2);
    }
}

/// The first so many jobs.
fn waiting(alloc: Global, many: usize) -> Result<VecDeque<Job>, Fail> {
    let mut jobs = VecDeque::new(alloc);
    let mut id = 0u64;
    for (coding, colour) in JOBS.iter().take(many) {
        id = id.saturating_add(1);
        let capture = capture_of(alloc, *coding, *colour)?;
        jobs.push_back(job_of(id, &capture)?)?;
    }
    Ok(jobs)
}

/// Writes a job's number and the bytes of its encoding.
fn tell_done(out: &mut String, done: &Done) -> Result<(), Fail> {
    let id = done.id().0;
    write!(out, " {id}:")?;
    for byte in done.encoded().bytes.as_slice() {
        write!(out, " {byte}")?;
    }
    Ok(())
}

/// Writes what a worker still has.
fn tell_left(out: &mut String, left: &Left) -> Result<(), Fail> {
    match left {
        Left::Job(job) => {
            let id = job.id().0;
            write!(out, " job {id}")?;
        }
        Left::Done(done) => tell_done(out, done)?,
    }
    Ok(())
}

fn told(alloc: Global, worked: &Worked, board: &MemBoard) -> Result<String, Fail> {
    let mut out = String::new(alloc);
    match worked {
        Worked::Out(filed) => write!(out, "out {filed}")?,
        Worked::NoMemory(left) => {
            out.push_str("no memory")?;
            tell_left(&mut out, left)?;
        }
        Worked::Stopped(left) => {
            out.push_str("stopped")?;
            tell_left(&mut out, left)?;
        }
    }
    out.push(';')?;
    for done in board.results() {
        tell_done(&mut out, done)?;
    }
    Ok(out)
}

fn board_of(alloc: Global, many: usize, failing: &[u64], stopping: u64) -> Result<MemBoard, Fail>
    ensures { IfOk result (λ board. IsFree board.board) }
{
    let failing = Vec::from_slice(alloc, failing)?;
    Ok(MemBoard::new(alloc, waiting(alloc, many)?, failing, stopping))
}

#[test]
fn a_worker_files_each_job_as_its_own_encoding(rt: HostRuntime) -> Result<(), Fail> {
    let alloc = rt.alloc();
    for (many, failing, stopping, want, calls) in WORK {
        let mut board = board_of(alloc, *many, failing, *stopping)?;
        let worked = work(&rt, alloc, &mut board, &NoGate);
        assert_eq!(rt; told(alloc, &worked, &board)?.as_str(), *want);
        let gate = Calls(AtomicU64::new(0));
        let mut board = board_of(alloc, *many, failing, *stopping)?;
        let worked = work(&rt, alloc, &mut board, &gate);
        assert_eq!(rt; told(alloc, &worked, &board)?.as_str(), *want);
        assert_eq!(rt; gate.0.load(Ordering::SeqCst), *calls, "{want}");
    }
    Ok(())
}
