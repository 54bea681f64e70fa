// Jobs for tests.
use capture_jobs::Job;
use std::alloc::Global;
use std::sync::Arc;
use std::test::Fail;
use xp_base::{Capture, Coding, Conn, JobId, Pixel, Pixels, Rect, Wid};

/// A capture of one pixel of this colour.
pub fn capture_of(alloc: Global, coding: Coding, colour: u32) -> Result<Arc<Capture>, Fail> {
    let rect = Rect::new(0, 0, 1, 1).ok_or("a rectangle")?;
    let pixels = vec![in alloc; Pixel::new(colour).ok_or("a pixel's number")?]?;
    if pixels.len() != rect.area() as usize {
        return Err(Fail::from("as many pixels as the rectangle has"));
    }
    Ok(Arc::new(alloc, Capture::new(rect, coding, Pixels::new(pixels)))?)
}

/// A job with this number and this capture, for window 1 of connection 0.
pub fn job_of(id: u64, capture: &Arc<Capture>) -> Result<Job, Fail> {
    let wid = Wid::new(1).ok_or("a window's number")?;
    Ok(Job::new(JobId(id), Conn(0), wid, Arc::try_clone(capture)?))
}
