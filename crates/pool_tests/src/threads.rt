// The queue of jobs in four threads.
ghost use Rattle.std.specs.Prelude.{◌≡◌};
ghost use Rattle.std.specs.Thread.{IsSync};
ghost use Rattle.encode_pool.specs.Passes.{seen, IsPassIn};
ghost use Rattle.pool_tests.specs.Passes.{IsFirstIn};

use crate::samples::{capture_of, job_of};
use capture_jobs::Job;
use encode_pool::{JobPass, JobQueue};
use std::alloc::Global;
use std::sync::Wait;
use std::test::Fail;
use std::thread;
use std::thread::Threads;
use xp_base::Coding;

/// The numbers of the jobs are 1 to this one.
const JOBS: u64 = 10_000;

/// The number of a job that tells a thread to stop.
const STOP: u64 = 0;

/// A thread's pass, and how often each number came out by it.
#[derive(Drop)]
struct Side {
    pass: JobPass,
    times: Vec<u8>,
}

/// Pops a job, if there is one: its number.
fn pop_one<R: Wait>(rt: &R, queue: &JobQueue, side: &mut Side) -> Option<u64>
    requires { IsPassIn queue.now side.old.pass }
    ensures queue { IsPassIn queue.now side.new.pass }
    ensures standing { (seen side.new.pass).standing ≡ (seen side.old.pass).standing }
{
    let Some(job) = queue.pop(rt, &mut side.pass) else {
        thread::yield_now();
        return None;
    };
    let number = job.id().0;
    if let Some(times) = side.times.get_mut(number as usize) {
        *times = times.saturating_add(1);
    }
    Some(number)
}

/// Pushes a job. While there is no room, the pass pops.
fn push_one<R: Wait>(rt: &R, queue: &JobQueue, side: &mut Side, job: Job)
    requires { IsFirstIn queue.now side.old.pass }
    ensures { IsFirstIn queue.now side.new.pass }
{
    let mut waiting = job;
    for _ in rt.forever() {
        match queue.push(rt, &mut side.pass, waiting) {
            Ok(()) => return,
            Err(back) => waiting = back,
        }
        pop_one(rt, queue, side);
    }
    unreachable!()
}

/// Pushes the jobs one after another.
fn push_all<R: Wait>(rt: &R, queue: &JobQueue, mut side: Side, jobs: Vec<Job>) -> Side
    requires { IsFirstIn queue.now side.pass }
    ensures { IsFirstIn queue.now result.pass }
{
    for job in jobs {
        push_one(rt, queue, &mut side, job);
    }
    side
}

/// Pops until a job tells it to stop.
fn pop_all<R: Wait>(rt: &R, queue: &JobQueue, mut side: Side) -> Side
    requires { IsPassIn queue.now side.pass }
    ensures { IsPassIn queue.now result.pass }
{
    for _ in rt.forever() {
        if pop_one(rt, queue, &mut side) == Some(STOP) {
            return side;
        }
    }
    unreachable!()
}

/// One thread pops beside another.
fn pop_beside<R: Threads + Wait + Sync>(
    rt: &R,
    queue: &JobQueue,
    one: Side,
    other: Side,
) -> (Side, Side)
    requires { IsPassIn queue.now one.pass × IsPassIn queue.now other.pass }
    ensures { IsPassIn queue.now result.0.pass × IsPassIn queue.now result.1.pass }
{
    thread::join(
        rt,
        move || -> Side
            requires { IsPassIn queue.now one.pass }
            ensures { IsPassIn queue.entry.now result.pass }
        { pop_all(rt, queue, one) },
        move || -> Side
            requires { IsPassIn queue.now other.pass }
            ensures { IsPassIn queue.entry.now result.pass }
        { pop_all(rt, queue, other) },
    )
}

/// One thread pushes, and another pops.
fn push_beside<R: Threads + Wait + Sync>(
    rt: &R,
    queue: &JobQueue,
    first: Side,
    jobs: Vec<Job>,
    other: Side,
) -> (Side, Side)
    requires { IsFirstIn queue.now first.pass × IsPassIn queue.now other.pass }
    ensures { IsFirstIn queue.now result.0.pass × IsPassIn queue.now result.1.pass }
{
    thread::join(
        rt,
        move || -> Side
            requires { IsFirstIn queue.now first.pass }
            ensures { IsFirstIn queue.entry.now result.pass }
        { push_all(rt, queue, first, jobs) },
        move || -> Side
            requires { IsPassIn queue.now other.pass }
            ensures { IsPassIn queue.entry.now result.pass }
        { pop_all(rt, queue, other) },
    )
}

/// The four threads: the first one pushes, the others pop.
fn run<R: Threads + Wait + Sync>(
    rt: &R,
    queue: &JobQueue,
    jobs: Vec<Job>,
    first: Side,
    others: (Side, Side, Side),
) -> ((Side, Side), (Side, Side))
    requires first { IsFirstIn queue.now first.pass }
    requires one { IsPassIn queue.now others.0.pass }
    requires two { IsPassIn queue.now others.1.pass }
    requires three { IsPassIn queue.now others.2.pass }
    ensures first { IsFirstIn queue.now result.0.0.pass × IsPassIn queue.now result.0.1.pass }
    ensures others { IsPassIn queue.now result.1.0.pass × IsPassIn queue.now result.1.1.pass }
{
    let (one, two, three) = others;
    thread::join(
        rt,
        move || -> (Side, Side)
            requires { IsSync R.row × IsFirstIn queue.now first.pass × IsPassIn queue.now one.pass }
            ensures { IsFirstIn queue.entry.now result.0.pass × IsPassIn queue.entry.now result.1.pass }
        { push_beside(rt, queue, first, jobs, one) },
        move || -> (Side, Side)
            requires { IsSync R.row × IsPassIn queue.now two.pass × IsPassIn queue.now three.pass }
            ensures { IsPassIn queue.entry.now result.0.pass × IsPassIn queue.entry.now result.1.pass }
        { pop_beside(rt, queue, two, three) },
    )
}

/// The jobs, and behind them one for each thread that it tells to stop.
fn all_jobs(alloc: Global) -> Result<Vec<Job>, Fail> {
    let capture = capture_of(alloc, Coding::Exact, 0x102030)?;
    let mut jobs = Vec::new(alloc);
    for number in 1..JOBS + 1 {
        jobs.push(job_of(number, &capture)?)?;
    }
    for _ in 0..3 {
        jobs.push(job_of(STOP, &capture)?)?;
    }
    Ok(jobs)
}

/// A count for each number.
fn no_times(alloc: Global) -> Result<Vec<u8>, Fail> {
    Ok(vec![in alloc; 0u8; JOBS as usize + 1]?)
}

/// Takes a further pass in: how often each number came out by it.
fn taken_in(queue: &JobQueue, first: &mut JobPass, other: Side) -> Vec<u8>
    requires { IsFirstIn queue.now first.old × IsPassIn queue.now other.pass }
    ensures { IsFirstIn queue.now first.new }
{
    let Side { pass, times } = other;
    queue.join(first, pass);
    times
}

/// How often the number came out by all four.
fn times_in_all(counts: &[Vec<u8>], number: u64) -> u64 {
    let mut sum = 0u64;
    for times in counts {
        if let Some(times) = times.get(number as usize) {
            sum = sum.saturating_add(u64::from(*times));
        }
    }
    sum
}

/// The first job that did not come out once, or 0.
fn first_wrong(counts: &[Vec<u8>]) -> u64 {
    for number in 1..JOBS + 1 {
        if times_in_all(counts, number) != 1 {
            return number;
        }
    }
    0
}

#[test]
fn each_job_comes_out_once(rt: HostRuntime) -> Result<(), Fail> {
    let alloc = rt.alloc();
    let jobs = all_jobs(alloc)?;
    let (mine, one, two, three) = (
        no_times(alloc)?,
        no_times(alloc)?,
        no_times(alloc)?,
        no_times(alloc)?,
    );
    let (queue, mut pass) = JobQueue::new(alloc)?;
    let one = Side {
        pass: queue.split(&mut pass),
        times: one,
    };
    let two = Side {
        pass: queue.split(&mut pass),
        times: two,
    };
    let three = Side {
        pass: queue.split(&mut pass),
        times: three,
    };
    let first = Side { pass, times: mine };
    let ((first, one), (two, three)) = run(&rt, &queue, jobs, first, (one, two, three));
    let Side { mut pass, times } = first;
    let one = taken_in(&queue, &mut pass, one);
    let two = taken_in(&queue, &mut pass, two);
    let three = taken_in(&queue, &mut pass, three);
    assert!(rt; queue.pop(&rt, &mut pass).is_none());
    let counts = [times, one, two, three];
    assert_eq!(rt; times_in_all(&counts, STOP), 3);
    assert_eq!(rt; first_wrong(&counts), 0);
    Ok(())
}
