// Rectangles, captures and jobs for tests.
use draw_sequencer::Sequencer;
use rect_regions::{BitRegion, Points};
use std::alloc::Global;
use std::sync::Arc;
use std::test::Fail;
use xp_base::{Capture, Coding, JobId, Pixel, Pixels, Rect};

/// The pixel in this column of the first row.
pub fn point(x: u32) -> Result<Rect, Fail> {
    Ok(Rect::new(x, 0, 1, 1).ok_or("a column")?)
}

/// A capture of one colour.
pub fn capture_of(
    alloc: Global,
    rect: Rect,
    coding: Coding,
    colour: u32,
) -> Result<Arc<Capture>, Fail> {
    let pixel = Pixel::new(colour).ok_or("a pixel's number")?;
    let pixels = vec![in alloc; pixel; rect.area() as usize]?;
    if pixels.len() != rect.area() as usize {
        return Err(Fail::from("as many pixels as the rectangle has"));
    }
    Ok(Arc::new(alloc, Capture::new(rect, coding, Pixels::new(pixels)))?)
}

/// Takes a job in hand where its number may be, whose draw relieves its rectangle: whether it may.
pub fn add(
    jobs: &mut Sequencer<BitRegion>,
    alloc: Global,
    number: u64,
    capture: Arc<Capture>,
) -> Result<bool, Fail> {
    let id = JobId(number);
    if jobs.find(id).is_some() || jobs.len() >= 1000 {
        return Ok(false);
    }
    let mut relief = BitRegion::new(alloc);
    relief.union_rect(capture.rect)?;
    jobs.add(id, capture, relief)?;
    Ok(true)
}
