// What a capture holds.
use crate::samples::{desktop, draw, rectangle, tell_capture, window};
use capture_jobs::capture;
use std::alloc::Global;
use std::test::Fail;
use window_model::Desk;
use xp_base::{Capture, Coding, Rect, Wid};

/// A rectangle of a window of 5 by 4 pixels, whose numbers are 0 to 4 in the first row and 15 to 19 in
/// the last, its coding, and its capture.
const CAPTURES: &[(u32, u32, u32, u32, Coding, &str)] = &[
    (0, 0, 1, 1, Coding::Exact, "0 0 1 1 exact: 0"),
    (4, 3, 1, 1, Coding::Lossy, "4 3 1 1 lossy: 19"),
    (
        1,
        2,
        3,
        2,
        Coding::Exact,
        "1 2 3 2 exact: 11 12 13 16 17 18",
    ),
    (0, 1, 5, 1, Coding::Lossy, "0 1 5 1 lossy: 5 6 7 8 9"),
    (2, 0, 1, 4, Coding::Exact, "2 0 1 4 exact: 2 7 12 17"),
    (3, 1, 2, 2, Coding::Exact, "3 1 2 2 exact: 8 9 13 14"),
];

/// A capture of a rectangle of the window.
fn taken(desk: &Desk, alloc: Global, wid: Wid, r: Rect, coding: Coding) -> Result<Capture, Fail> {
    let window = desk.find(wid).ok_or("no window")?;
    if !r.lies_in(window.w, window.h) {
        return Err(Fail::from("the rectangle is outside"));
    }
    Ok(capture(alloc, window, r, coding)?)
}

fn told(alloc: Global, capture: &Capture) -> Result<String, Fail> {
    let mut out = String::new(alloc);
    tell_capture(&mut out, capture)?;
    Ok(out)
}

#[test]
fn a_capture_has_the_pixels_of_its_rows(rt: HostRuntime) -> Result<(), Fail> {
    let alloc = rt.alloc();
    let wid = window(3)?;
    let desk = desktop(alloc, wid, 5, 4, 0)?;
    for (x, y, w, h, coding, want) in CAPTURES {
        let capture = taken(&desk, alloc, wid, rectangle(*x, *y, *w, *h)?, *coding)?;
        assert_eq!(rt; told(alloc, &capture)?.as_str(), *want);
    }
    Ok(())
}

#[test]
fn a_capture_keeps_the_pixels_of_its_moment(rt: HostRuntime) -> Result<(), Fail> {
    let alloc = rt.alloc();
    let wid = window(3)?;
    let rect = rectangle(1, 0, 2, 2)?;
    let mut desk = desktop(alloc, wid, 4, 2, 0)?;
    let before = taken(&desk, alloc, wid, rect, Coding::Exact)?;
    draw(&mut desk, alloc, wid, rectangle(0, 0, 4, 1)?, 50)?;
    let after = taken(&desk, alloc, wid, rect, Coding::Exact)?;
    assert_eq!(rt; told(alloc, &before)?.as_str(), "1 0 2 2 exact: 1 2 5 6");
    assert_eq!(rt; told(alloc, &after)?.as_str(), "1 0 2 2 exact: 51 52 5 6");
    Ok(())
}
