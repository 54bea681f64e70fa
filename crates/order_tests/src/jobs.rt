// The jobs in hand, and what becomes of their results.
use crate::samples::{add, capture_of, point};
use draw_sequencer::{Kept, Sequencer, same_capture};
use rect_regions::BitRegion;
use rgb_encoders::encode;
use std::alloc::Global;
use std::fmt::Write;
use std::sync::Arc;
use std::test::Fail;
use xp_base::{Capture, Coding, JobId, Rect};

/// A capture of one pixel in the column of its job's number.
fn one_pixel(alloc: Global, number: u64) -> Result<Arc<Capture>, Fail> {
    let place = u32::try_from(number)?;
    capture_of(alloc, point(place)?, Coding::Exact, 0xff0000)
}

/// Jobs with these numbers, whose captures of one pixel stand side by side.
fn jobs_of(alloc: Global, numbers: &[u64]) -> Result<Sequencer<BitRegion>, Fail> {
    let mut jobs = Sequencer::new(alloc);
    jobs.reserve(3)?;
    for number in numbers {
        add(&mut jobs, alloc, *number, one_pixel(alloc, *number)?)?;
    }
    Ok(jobs)
}

/// The encoding of a capture comes back for the job with this number.
fn file(
    jobs: &mut Sequencer<BitRegion>,
    alloc: Global,
    number: u64,
    capture: Arc<Capture>,
) -> Result<Kept, Fail> {
    Ok(jobs.file(JobId(number), encode(alloc, capture)?))
}

/// Writes the numbers of the jobs that leave.
fn leave(jobs: &mut Sequencer<BitRegion>, out: &mut String) -> Result<(), Fail> {
    for _ in 0..jobs.len() {
        let Some(ready) = jobs.pop_ready() else {
            return Ok(());
        };
        let number = ready.id.0;
        let place = ready.encoded.capture.rect.x;
        write!(out, " {number}@{place}")?;
    }
    Ok(())
}

/// The results of three jobs that come back, one after another, and what is told of each: its number, how
/// many jobs were to leave, and the numbers of those that left, each with the column of its pixel; and in
/// the end how many jobs are in hand, of how many pixels.
const ORDERS: &[(&[u64], &str)] = &[
    (&[1, 2, 3], "1 1: 1@1; 2 1: 2@2; 3 1: 3@3; 0 of 0"),
    (&[1, 3, 2], "1 1: 1@1; 3 0:; 2 2: 2@2 3@3; 0 of 0"),
    (&[2, 1, 3], "2 0:; 1 2: 1@1 2@2; 3 1: 3@3; 0 of 0"),
    (&[2, 3, 1], "2 0:; 3 0:; 1 3: 1@1 2@2 3@3; 0 of 0"),
    (&[3, 1, 2], "3 0:; 1 1: 1@1; 2 2: 2@2 3@3; 0 of 0"),
    (&[3, 2, 1], "3 0:; 2 0:; 1 3: 1@1 2@2 3@3; 0 of 0"),
];

/// What is told of results that come back in this order. Each has a capture of its own in memory.
fn told_of_order(alloc: Global, order: &[u64]) -> Result<String, Fail> {
    let mut jobs = jobs_of(alloc, &[1, 2, 3])?;
    let mut out = String::new(alloc);
    for number in order {
        let leaving = jobs.leaving(JobId(*number));
        write!(out, "{number} {leaving}:")?;
        file(&mut jobs, alloc, *number, one_pixel(alloc, *number)?)?;
        leave(&mut jobs, &mut out)?;
        out.push_str("; ")?;
    }
    put_count(&jobs, &mut out)?;
    Ok(out)
}

/// Writes how many jobs are in hand, and how many pixels they have.
fn put_count(jobs: &Sequencer<BitRegion>, out: &mut String) -> Result<(), Fail> {
    let many = jobs.len();
    let pixels = jobs.pixels();
    write!(out, "{many} of {pixels}")?;
    Ok(())
}

#[test]
fn jobs_leave_in_the_order_of_their_captures(rt: HostRuntime) -> Result<(), Fail> {
    for (order, want) in ORDERS {
        assert_eq!(rt; told_of_order(rt.alloc(), order)?.as_str(), *want);
    }
    Ok(())
}

/// A number of a job, what the result that comes back for it captured, and what is told: whether that is the
/// capture of jobs 5 and 9, of the colour 102030 in the lossy coding, and what becomes of the result.
const RESULTS: &[(u64, Coding, u32, &str)] = &[
    (6, Coding::Lossy, 0x102030, "same late"),
    (5, Coding::Exact, 0x102030, "other foreign"),
    (5, Coding::Lossy, 0x102031, "other foreign"),
    (9, Coding::Lossy, 0x102030, "same kept"),
    (5, Coding::Lossy, 0x102030, "same kept"),
];

/// What becomes of a result; a foreign one is handed back.
fn became(kept: &Kept, coding: Coding) -> &'static str {
    match kept {
        Kept::Kept => "kept",
        Kept::Late => "late",
        Kept::Foreign(back) => {
            if back.capture.coding == coding {
                "foreign"
            } else {
                "another one"
            }
        }
    }
}

/// Files a result, and tells of it.
fn told_of_result(
    jobs: &mut Sequencer<BitRegion>,
    alloc: Global,
    capture: &Capture,
    number: u64,
    own: Arc<Capture>,
) -> Result<String, Fail> {
    let mut out = String::new(alloc);
    let coding = own.coding;
    out.push_str(if same_capture(&own, capture) {
        "same "
    } else {
        "other "
    })?;
    let kept = file(jobs, alloc, number, own)?;
    out.push_str(became(&kept, coding))?;
    Ok(out)
}

/// Jobs 5 and 9, whose captures are equal; the number 5 can't be taken twice.
fn two_equal(alloc: Global, capture: &Arc<Capture>) -> Result<Sequencer<BitRegion>, Fail> {
    let mut jobs = Sequencer::new(alloc);
    let first = add(&mut jobs, alloc, 5, Arc::try_clone(capture)?)?;
    let again = add(&mut jobs, alloc, 5, Arc::try_clone(capture)?)?;
    let second = add(&mut jobs, alloc, 9, Arc::try_clone(capture)?)?;
    if !first || again || !second {
        return Err(Fail::from("jobs 5 and 9"));
    }
    Ok(jobs)
}

#[test]
fn a_result_is_kept_late_or_foreign(rt: HostRuntime) -> Result<(), Fail> {
    let alloc = rt.alloc();
    let rect = Rect::new(0, 0, 64, 64).ok_or("a rectangle")?;
    let capture = capture_of(alloc, rect, Coding::Lossy, 0x102030)?;
    let mut jobs = two_equal(alloc, &capture)?;
    for (number, coding, colour, want) in RESULTS {
        let own = capture_of(alloc, rect, *coding, *colour)?;
        let told = told_of_result(&mut jobs, alloc, &capture, *number, own)?;
        assert_eq!(rt; told.as_str(), *want);
    }
    Ok(())
}

/// Writes how many jobs there are and of how many pixels, the second, the one with number 7 and the one
/// with number 1, and which of the first five columns they relieve.
fn tell(jobs: &Sequencer<BitRegion>, out: &mut String) -> Result<(), Fail> {
    put_count(jobs, out)?;
    for job in [jobs.nth(1), jobs.find(JobId(7)), jobs.find(JobId(1))] {
        match job {
            Some(job) => {
                let number = job.id.0;
                write!(out, " {number}")?;
            }
            None => out.push_str(" none")?,
        }
    }
    for x in 0..5 {
        out.push_str(if jobs.owes(x, 0) { "+" } else { "-" })?;
    }
    Ok(())
}

fn told_of_jobs(alloc: Global) -> Result<String, Fail> {
    let mut jobs = jobs_of(alloc, &[4, 2, 7])?;
    let mut out = String::new(alloc);
    tell(&jobs, &mut out)?;
    out.push_str("; ")?;
    jobs.clear();
    tell(&jobs, &mut out)?;
    Ok(out)
}

#[test]
fn jobs_are_found_counted_and_cancelled(rt: HostRuntime) -> Result<(), Fail> {
    let told = told_of_jobs(rt.alloc())?;
    assert_eq!(rt;
        told.as_str(),
        "3 of 3 2 7 none--+-+; 0 of 0 none none none-----"
    );
    Ok(())
}
