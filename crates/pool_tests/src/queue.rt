// The queue of jobs in one thread.
ghost use Rattle.std.specs.Prelude.{◌≡◌};
ghost use Rattle.encode_pool.specs.Passes.{seen, IsPassIn};
ghost use Rattle.pool_tests.specs.Passes.{IsFirstIn};

use crate::samples::{capture_of, job_of};
use encode_pool::{CAPACITY, JobPass, JobQueue, pool_types_move};
use std::sync::{Arc, Wait};
use std::test::Fail;
use xp_base::{Capture, Coding};

/// Pushes the jobs from one number to below another: the number of the one that came back, or 0.
fn push<R: Wait>(
    rt: &R,
    queue: &JobQueue,
    first: &mut JobPass,
    capture: &Arc<Capture>,
    from: u64,
    to: u64,
) -> Result<u64, Fail>
    requires { IsFirstIn queue.now first.old }
    ensures { IsFirstIn queue.now first.new }
{
    for number in from..to {
        let job = job_of(number, capture)?;
        if let Err(back) = queue.push(rt, first, job) {
            return Ok(back.id().0);
        }
    }
    Ok(0)
}

/// Pops jobs while they have the numbers from one on, each one more than that before, up to below
/// another: how many came so.
fn pop<R: Wait>(rt: &R, queue: &JobQueue, pass: &mut JobPass, from: u64, to: u64) -> u64
    requires { IsPassIn queue.now pass.old }
    ensures queue { IsPassIn queue.now pass.new }
    ensures standing { (seen pass.new).standing ≡ (seen pass.old).standing }
{
    let mut count = 0u64;
    for number in from..to {
        let Some(job) = queue.pop(rt, pass) else {
            return count;
        };
        if job.id().0 != number {
            return count;
        }
        count = count.saturating_add(1);
    }
    count
}

#[test]
fn the_257th_job_comes_back(rt: HostRuntime) -> Result<(), Fail> {
    let capture = capture_of(rt.alloc(), Coding::Exact, 0x102030)?;
    let (queue, mut first) = JobQueue::new(rt.alloc())?;
    pool_types_move();
    assert_eq!(rt; CAPACITY, 256);
    assert_eq!(rt; pop(&rt, &queue, &mut first, 1, 2), 0);
    assert_eq!(rt; push(&rt, &queue, &mut first, &capture, 1, 300)?, 257);
    assert_eq!(rt; pop(&rt, &queue, &mut first, 1, 3), 2);
    assert_eq!(rt; push(&rt, &queue, &mut first, &capture, 257, 300)?, 259);
    assert_eq!(rt; pop(&rt, &queue, &mut first, 3, 300), 256);
    Ok(())
}

#[test]
fn a_further_pass_pops_what_the_first_one_pushed(rt: HostRuntime) -> Result<(), Fail> {
    let capture = capture_of(rt.alloc(), Coding::Lossy, 0x102030)?;
    let (queue, mut first) = JobQueue::new(rt.alloc())?;
    let mut further = queue.split(&mut first);
    assert_eq!(rt; push(&rt, &queue, &mut first, &capture, 7, 10)?, 0);
    assert_eq!(rt; pop(&rt, &queue, &mut further, 7, 9), 2);
    assert_eq!(rt; pop(&rt, &queue, &mut first, 9, 10), 1);
    queue.join(&mut first, further);
    assert_eq!(rt; pop(&rt, &queue, &mut first, 10, 11), 0);
    Ok(())
}
