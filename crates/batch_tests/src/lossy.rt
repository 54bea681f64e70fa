// What is lossy, and when it is drawn again.
use lossy_refresh::Lossy;
use rect_regions::{BitRegion, Points};
use std::test::Fail;
use xp_base::{Coding, Due, NoMemory, Rect, StepClock};

/// When a lossy draw was queued, a later moment, whether the window is busy then, and what is due.
const DUE: &[(u64, u64, bool, Due)] = &[
    (0, 0, false, Due::Early(250)),
    (0, 249, false, Due::Early(250)),
    (0, 250, false, Due::Now),
    (0, 249, true, Due::Clean),
    (0, 250, true, Due::Clean),
    (0, u64::MAX, false, Due::Now),
    (0, u64::MAX, true, Due::Clean),
    (1000, 1249, false, Due::Early(1250)),
    (1000, 1250, false, Due::Now),
    (
        StepClock::LAST,
        StepClock::LAST + 249,
        false,
        Due::Early(StepClock::LAST + 250),
    ),
    (StepClock::LAST, StepClock::LAST + 250, false, Due::Now),
];

/// Draws of squares at the window's corner, one after another: the side, the coding and the moment of
/// each, and after it how many points it repaired, how many are lossy, and from when on those are due.
const DRAWS: &[(u32, Coding, u64, u64, u64, Due)] = &[
    (64, Coding::Exact, 5, 0, 0, Due::Clean),
    (64, Coding::Lossy, 100, 0, 4096, Due::Early(350)),
    (10, Coding::Exact, 200, 100, 3996, Due::Early(350)),
    (10, Coding::Exact, 210, 0, 3996, Due::Early(350)),
    (8, Coding::Lossy, 300, 0, 4060, Due::Early(550)),
    (70, Coding::Lossy, 310, 0, 4900, Due::Early(560)),
    (69, Coding::Exact, 320, 4761, 139, Due::Early(560)),
    (70, Coding::Exact, 330, 139, 0, Due::Clean),
    (1, Coding::Lossy, 330, 0, 1, Due::Early(580)),
];

/// Queues a draw at a moment of the clock: how many points stopped being lossy.
fn queue(lossy: &mut Lossy<BitRegion>, r: Rect, c: Coding, now: u64) -> Result<u64, NoMemory> {
    if now > StepClock::LAST {
        return Ok(u64::MAX);
    }
    let gone = lossy.queued(r, c, now)?;
    Ok(gone.count())
}

/// Of the lossy points only those in the rectangle are left.
fn keep(lossy: &mut Lossy<BitRegion>, r: Rect) -> Result<(), NoMemory> {
    let kept = lossy.wanted().part(r)?;
    lossy.keep(kept);
    Ok(())
}

#[test]
fn lossy_points_are_due_after_a_quiet_time(rt: HostRuntime) -> Result<(), Fail> {
    let square = Rect::new(0, 0, 64, 64).ok_or("a rectangle")?;
    for (queued, now, busy, want) in DUE {
        let mut lossy = Lossy::<BitRegion>::new(rt.alloc());
        assert_eq!(rt; lossy.due(*now, *busy), Due::Clean, "{now}");
        assert_eq!(rt; queue(&mut lossy, square, Coding::Lossy, *queued)?, 0);
        assert_eq!(rt; lossy.due(*now, *busy), *want, "{queued} {now}");
    }
    Ok(())
}

#[test]
fn the_last_draw_over_a_point_decides(rt: HostRuntime) -> Result<(), Fail> {
    let mut lossy = Lossy::<BitRegion>::new(rt.alloc());
    for (side, coding, now, repaired, left, due) in DRAWS {
        let square = Rect::new(0, 0, *side, *side).ok_or("a rectangle")?;
        let gone = queue(&mut lossy, square, *coding, *now)?;
        assert_eq!(rt; gone, *repaired, "{now}");
        assert_eq!(rt; lossy.wanted().count(), *left, "{now}");
        assert_eq!(rt; lossy.due(*now, false), *due, "{now}");
    }
    Ok(())
}

#[test]
fn what_is_kept_is_lossy_since_the_same_moment(rt: HostRuntime) -> Result<(), Fail> {
    let square = Rect::new(0, 0, 64, 64).ok_or("a rectangle")?;
    let narrow = Rect::new(0, 0, 3, 4096).ok_or("a rectangle")?;
    let beyond = Rect::new(100, 100, 1, 1).ok_or("a rectangle")?;
    let mut lossy = Lossy::<BitRegion>::new(rt.alloc());
    assert_eq!(rt; queue(&mut lossy, square, Coding::Lossy, 40)?, 0);
    keep(&mut lossy, narrow)?;
    assert_eq!(rt; lossy.wanted().count(), 192);
    assert_eq!(rt; lossy.due(289, false), Due::Early(290));
    assert_eq!(rt; lossy.due(290, false), Due::Now);
    keep(&mut lossy, beyond)?;
    assert_eq!(rt; lossy.due(290, false), Due::Clean);
    Ok(())
}

#[test]
fn a_copy_is_worked_on_alone(rt: HostRuntime) -> Result<(), Fail> {
    let square = Rect::new(0, 0, 4, 4).ok_or("a rectangle")?;
    let mut lossy = Lossy::<BitRegion>::new(rt.alloc());
    assert_eq!(rt; queue(&mut lossy, square, Coding::Lossy, 40)?, 0);
    let mut copy = lossy.copy()?;
    assert_eq!(rt; copy.due(289, false), Due::Early(290));
    assert_eq!(rt; queue(&mut copy, square, Coding::Exact, 50)?, 16);
    assert_eq!(rt; copy.wanted().count(), 0);
    assert_eq!(rt; lossy.wanted().count(), 16);
    lossy.clear();
    assert_eq!(rt; lossy.wanted().count(), 0);
    assert_eq!(rt; lossy.due(290, false), Due::Clean);
    Ok(())
}
