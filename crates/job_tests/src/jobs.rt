// Jobs, their results, and what is answered to those who take and bring them.
use crate::samples::{rectangle, tell_capture, window};
use capture_jobs::{Done, Filed, Held, Job, NewJobs, Taken, job_types_move};
use rgb_encoders::encode;
use std::alloc::Global;
use std::fmt::Write;
use std::sync::Arc;
use std::test::Fail;
use xp_base::{Capture, Coding, Conn, JobId, Pixel, Pixels, Wid};

/// Numbers of jobs, connections and windows, the coding of one pixel in the column of the job's number,
/// and what is told of the job, of its result, and of the encoding that comes out of that. The pixel's
/// colour is 102030.
const JOBS: &[(u64, u32, i64, Coding, &str)] = &[
    (
        1,
        0,
        1,
        Coding::Exact,
        "1 of 0 1, 1 0 1 1 exact: 1056816; 1 of 0 1, 1 0 1 1 exact: 1056816; 48 32 16 255 48 32 16 255",
    ),
    (
        2,
        7,
        65_535,
        Coding::Lossy,
        "2 of 7 65535, 2 0 1 1 lossy: 1056816; 2 of 7 65535, 2 0 1 1 lossy: 1056816; 6 17 6 17",
    ),
    (
        4095,
        4_294_967_295,
        2,
        Coding::Exact,
        "4095 of 4294967295 2, 4095 0 1 1 exact: 1056816; 4095 of 4294967295 2, 4095 0 1 1 exact: 1056816; 48 32 16 255 48 32 16 255",
    ),
];

fn job_of(alloc: Global, id: u64, conn: u32, wid: i64, coding: Coding) -> Result<Job, Fail> {
    let rect = rectangle(u32::try_from(id)?, 0, 1, 1)?;
    let pixels = vec![in alloc; Pixel::new(0x102030).ok_or("a pixel's number")?]?;
    if pixels.len() != rect.area() as usize {
        return Err(Fail::from("as many pixels as the rectangle has"));
    }
    let capture = Arc::new(alloc, Capture::new(rect, coding, Pixels::new(pixels)))?;
    Ok(Job::new(JobId(id), Conn(conn), window(wid)?, capture))
}

/// The job with the encoding of its capture.
fn done_of(alloc: Global, job: Job) -> Result<Done, Fail> {
    let encoded = encode(alloc, Arc::try_clone(job.capture())?)?;
    Ok(job.done(encoded))
}

/// Writes a job's numbers, and what it captured.
fn tell(out: &mut String, id: JobId, conn: Conn, wid: Wid, capture: &Capture) -> Result<(), Fail> {
    let (id, conn, wid) = (id.0, conn.0, wid.get());
    write!(out, "{id} of {conn} {wid}, ")?;
    tell_capture(out, capture)?;
    out.push(';')?;
    Ok(())
}

fn tell_bytes(out: &mut String, bytes: &[u8]) -> Result<(), Fail> {
    for byte in bytes {
        write!(out, " {byte}")?;
    }
    Ok(())
}

/// What is told of a job, of its result, and of its encoding.
fn told(alloc: Global, job: Job) -> Result<String, Fail> {
    let mut out = String::new(alloc);
    tell(&mut out, job.id(), job.conn(), job.wid(), job.capture())?;
    out.push(' ')?;
    let done = done_of(alloc, job)?;
    tell(&mut out, done.id(), done.conn(), done.wid(), done.capture())?;
    tell_bytes(&mut out, done.encoded().bytes.as_slice())?;
    let encoded = done.into_encoded();
    tell_bytes(&mut out, encoded.bytes.as_slice())?;
    Ok(out)
}

#[test]
fn a_job_and_its_result_tell_what_they_are_for(rt: HostRuntime) -> Result<(), Fail> {
    job_types_move();
    for (id, conn, wid, coding, want) in JOBS {
        let job = job_of(rt.alloc(), *id, *conn, *wid, *coding)?;
        assert_eq!(rt; told(rt.alloc(), job)?.as_str(), *want);
    }
    Ok(())
}

/// Writes the numbers of jobs.
fn tell_numbers(out: &mut String, jobs: &[Job]) -> Result<(), Fail> {
    for job in jobs {
        let id = job.id().0;
        write!(out, "{id} ")?;
    }
    Ok(())
}

fn tell_taken(out: &mut String, taken: &Taken) -> Result<(), Fail> {
    match taken {
        Taken::Job(job) => tell_number(out, "job ", job.id())?,
        Taken::Nothing => out.push_str("nothing; ")?,
    }
    Ok(())
}

fn tell_filed(out: &mut String, filed: &Filed) -> Result<(), Fail> {
    match filed {
        Filed::Filed => out.push_str("filed; ")?,
        Filed::Late => out.push_str("late; ")?,
        Filed::Foreign(done) => tell_number(out, "foreign ", done.id())?,
        Filed::Back(done) => tell_number(out, "back ", done.id())?,
    }
    Ok(())
}

fn tell_number(out: &mut String, word: &str, id: JobId) -> Result<(), Fail> {
    let number = id.0;
    write!(out, "{word}{number}; ")?;
    Ok(())
}

fn exact_job(alloc: Global, id: u64) -> Result<Job, Fail> {
    job_of(alloc, id, 0, 1, Coding::Exact)
}

/// The numbers of three jobs in a list of new ones, of held ones, and out of that.
fn told_lists(alloc: Global) -> Result<String, Fail> {
    let mut out = String::new(alloc);
    let mut jobs = Vec::new(alloc);
    for id in [8, 5, 9] {
        jobs.push(exact_job(alloc, id)?)?;
    }
    let made = NewJobs::new(jobs);
    tell_numbers(&mut out, made.as_slice())?;
    let held = Held::new(made.into_vec());
    tell_numbers(&mut out, held.as_slice())?;
    tell_numbers(&mut out, held.into_vec().as_slice())?;
    Ok(out)
}

fn told_answers(alloc: Global) -> Result<String, Fail> {
    let mut out = String::new(alloc);
    tell_taken(&mut out, &Taken::Job(exact_job(alloc, 8)?))?;
    tell_taken(&mut out, &Taken::Nothing)?;
    tell_filed(&mut out, &Filed::Filed)?;
    tell_filed(&mut out, &Filed::Late)?;
    tell_filed(
        &mut out,
        &Filed::Foreign(done_of(alloc, exact_job(alloc, 9)?)?),
    )?;
    tell_filed(
        &mut out,
        &Filed::Back(done_of(alloc, exact_job(alloc, 5)?)?),
    )?;
    Ok(out)
}

#[test]
fn lists_and_answers_hand_out_what_was_put_in(rt: HostRuntime) -> Result<(), Fail> {
    assert_eq!(rt; told_lists(rt.alloc())?.as_str(), "8 5 9 8 5 9 8 5 9 ");
    assert_eq!(rt;
        told_answers(rt.alloc())?.as_str(),
        "job 8; nothing; filed; late; foreign 9; back 5; "
    );
    Ok(())
}
