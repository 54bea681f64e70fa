// Which rectangles a capture takes, and how each is coded.
use crate::samples::{rectangle, tell_rectangle};
use capture_jobs::{MOST_RECTANGLES, Planned, plan};
use rect_regions::{BitRegion, Points, Region};
use std::alloc::Global;
use std::fmt::Write;
use std::test::Fail;

/// Rectangles of which a set of points is made, whether the capture is a refresh, whether the client
/// allows lossy draws, and the plan.
struct Case {
    rects: &'static [(u32, u32, u32, u32)],
    refresh: bool,
    lossy: bool,
    want: &'static str,
}

const NO_POINTS: &[(u32, u32, u32, u32)] = &[];

/// 4,096 and 4,095 pixels.
const SQUARE: &[(u32, u32, u32, u32)] = &[(0, 0, 64, 64)];

const ONE_LESS: &[(u32, u32, u32, u32)] = &[(0, 0, 63, 65)];

/// 4,096 and 4,095 pixels beside each other in other shapes, and a pixel.
const ROWS: &[(u32, u32, u32, u32)] = &[(0, 0, 4096, 1), (1, 2, 4095, 1), (9, 4, 1, 1)];

/// A square of 4,096 pixels with a pixel beside its first row, which cuts that row off.
const CUT: &[(u32, u32, u32, u32)] = &[(0, 0, 64, 64), (100, 0, 1, 1)];

/// Two squares of 4,096 pixels that share all but one column and one row.
const OVERLAP: &[(u32, u32, u32, u32)] = &[(0, 0, 64, 64), (1, 1, 64, 64)];

const CASES: &[Case] = &[
    Case {
        rects: NO_POINTS,
        refresh: false,
        lossy: true,
        want: "",
    },
    Case {
        rects: SQUARE,
        refresh: false,
        lossy: true,
        want: "0 0 64 64 lossy; ",
    },
    Case {
        rects: SQUARE,
        refresh: false,
        lossy: false,
        want: "0 0 64 64 exact; ",
    },
    Case {
        rects: SQUARE,
        refresh: true,
        lossy: true,
        want: "0 0 64 64 exact; ",
    },
    Case {
        rects: SQUARE,
        refresh: true,
        lossy: false,
        want: "0 0 64 64 exact; ",
    },
    Case {
        rects: ONE_LESS,
        refresh: false,
        lossy: true,
        want: "0 0 63 65 exact; ",
    },
    Case {
        rects: ROWS,
        refresh: false,
        lossy: true,
        want: "0 0 4096 1 lossy; 1 2 4095 1 exact; 9 4 1 1 exact; ",
    },
    Case {
        rects: CUT,
        refresh: false,
        lossy: true,
        want: "0 0 64 1 exact; 100 0 1 1 exact; 0 1 64 63 exact; ",
    },
    Case {
        rects: OVERLAP,
        refresh: false,
        lossy: true,
        want: "0 0 64 1 exact; 0 1 65 63 exact; 1 64 64 1 exact; ",
    },
];

fn points_of<P: Points>(alloc: Global, rects: &[(u32, u32, u32, u32)]) -> Result<P, Fail> {
    let mut points = P::new(alloc);
    for (x, y, w, h) in rects {
        points.union_rect(rectangle(*x, *y, *w, *h)?)?;
    }
    Ok(points)
}

/// Writes rectangles and their codings, one behind the other.
fn tell_plan(out: &mut String, plan: &[Planned]) -> Result<(), Fail> {
    for planned in plan {
        tell_rectangle(out, planned.rect, planned.coding)?;
        out.push_str("; ")?;
    }
    Ok(())
}

/// What is told of the plan of these points, kept as a `P`.
fn planned<P: Points>(alloc: Global, case: &Case) -> Result<String, Fail> {
    let points = points_of::<P>(alloc, case.rects)?;
    let plan = plan(alloc, &points, case.refresh, case.lossy)?;
    let mut out = String::new(alloc);
    tell_plan(&mut out, plan.as_slice())?;
    Ok(out)
}

#[test]
fn a_large_rectangle_is_lossy_where_it_may_be(rt: HostRuntime) -> Result<(), Fail> {
    for case in CASES {
        let bits = planned::<BitRegion>(rt.alloc(), case)?;
        assert_eq!(rt; bits.as_str(), case.want);
        let bands = planned::<Region>(rt.alloc(), case)?;
        assert_eq!(rt; bands.as_str(), case.want);
    }
    Ok(())
}

/// So many columns of this height, every other one from column 0 on, and what is told of them: the
/// rectangles of their list, of their plan, and the last of the plan. The client allows lossy draws. 33
/// pixels in a row become one rectangle, and 33 columns of 64 one of 4,160 pixels, which is exact all the
/// same.
const COMBS: &[(u32, u32, &str)] = &[
    (1, 1, "1 are 1: 0 0 1 1 exact; "),
    (31, 1, "31 are 31: 60 0 1 1 exact; "),
    (32, 1, "32 are 32: 62 0 1 1 exact; "),
    (33, 1, "33 are 1: 0 0 65 1 exact; "),
    (34, 1, "34 are 1: 0 0 67 1 exact; "),
    (2, 4096, "2 are 2: 2 0 1 4096 lossy; "),
    (32, 4095, "32 are 32: 62 0 1 4095 exact; "),
    (32, 4096, "32 are 32: 62 0 1 4096 lossy; "),
    (33, 64, "33 are 1: 0 0 65 64 exact; "),
    (33, 4096, "33 are 1: 0 0 65 4096 exact; "),
];

fn comb(alloc: Global, teeth: u32, high: u32) -> Result<Region, Fail> {
    let mut points = Region::new(alloc);
    for tooth in 0..teeth {
        let place = tooth.checked_mul(2).ok_or("a column")?;
        points.union_rect(rectangle(place, 0, 1, high)?)?;
    }
    Ok(points)
}

fn told(alloc: Global, teeth: u32, high: u32) -> Result<String, Fail> {
    let points = comb(alloc, teeth, high)?;
    let pieces = points.pieces();
    let planned = plan(alloc, &points, false, true)?.into_vec();
    let many = planned.len();
    let mut out = String::new(alloc);
    write!(out, "{pieces} are {many}: ")?;
    tell_plan(&mut out, &planned.as_slice()[many.saturating_sub(1)..])?;
    Ok(out)
}

#[test]
fn more_than_32_rectangles_are_captured_as_one(rt: HostRuntime) -> Result<(), Fail> {
    assert_eq!(rt; MOST_RECTANGLES, 32);
    for (teeth, high, want) in COMBS {
        assert_eq!(rt; told(rt.alloc(), *teeth, *high)?.as_str(), *want);
    }
    Ok(())
}
