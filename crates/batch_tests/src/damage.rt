// What is pending, and when it is due.
use damage_batch::Batch;
use rect_regions::{BitRegion, Points};
use std::test::Fail;
use xp_base::{Due, NoMemory, Rect, StepClock};

/// When one pixel was damaged, a later moment, and what is due then.
const DUE: &[(u64, u64, Due)] = &[
    (0, 0, Due::Early(20)),
    (0, 19, Due::Early(20)),
    (0, 20, Due::Now),
    (0, u64::MAX, Due::Now),
    (1000, 999, Due::Early(1020)),
    (1000, 1019, Due::Early(1020)),
    (1000, 1020, Due::Now),
    (StepClock::LAST, 0, Due::Early(StepClock::LAST + 20)),
    (
        StepClock::LAST,
        StepClock::LAST + 19,
        Due::Early(StepClock::LAST + 20),
    ),
    (StepClock::LAST, StepClock::LAST + 20, Due::Now),
];

/// What happens to the window at this load, and the delay after it.
const DELAYS: &[(Event, u32, u64)] = &[
    (Event::Capture, 31, 20),
    (Event::Acknowledgement, 9, 20),
    (Event::Capture, 32, 40),
    (Event::Capture, 0, 40),
    (Event::Capture, 63, 80),
    (Event::Capture, u32::MAX, 160),
    (Event::Capture, 32, 320),
    (Event::Capture, 32, 500),
    (Event::Capture, 32, 500),
    (Event::Acknowledgement, 8, 375),
    (Event::Acknowledgement, 0, 282),
    (Event::Acknowledgement, 31, 282),
    (Event::Acknowledgement, 8, 212),
    (Event::Acknowledgement, 8, 159),
    (Event::Acknowledgement, 8, 120),
    (Event::Acknowledgement, 8, 90),
    (Event::Acknowledgement, 8, 68),
    (Event::Acknowledgement, 8, 51),
    (Event::Acknowledgement, 8, 39),
    (Event::Acknowledgement, 8, 30),
    (Event::Acknowledgement, 8, 23),
    (Event::Acknowledgement, 8, 18),
    (Event::Acknowledgement, 8, 14),
    (Event::Acknowledgement, 8, 11),
    (Event::Acknowledgement, 8, 10),
    (Event::Acknowledgement, 8, 10),
    (Event::Capture, 32, 20),
];

#[derive(Clone, Copy)]
enum Event {
    Capture,
    Acknowledgement,
}

/// Damages a rectangle at a moment of the clock: whether it is one.
fn damage(batch: &mut Batch<BitRegion>, r: Rect, now: u64) -> Result<bool, NoMemory> {
    if now > StepClock::LAST {
        return Ok(false);
    }
    let pending = batch.with(r)?;
    batch.set(pending, now);
    Ok(true)
}

#[test]
fn damage_is_due_after_the_delay(rt: HostRuntime) -> Result<(), Fail> {
    let pixel = Rect::new(3, 4, 1, 1).ok_or("a rectangle")?;
    for (damaged, now, want) in DUE {
        let mut batch = Batch::<BitRegion>::new(rt.alloc(), 0);
        assert_eq!(rt; batch.due(*now), Due::Clean, "{now}");
        assert!(rt; damage(&mut batch, pixel, *damaged)?);
        assert_eq!(rt; batch.due(*now), *want, "{damaged} {now}");
    }
    Ok(())
}

#[test]
fn the_delay_follows_the_load(rt: HostRuntime) -> Result<(), Fail> {
    let pixel = Rect::new(1, 0, 1, 1).ok_or("a rectangle")?;
    let mut batch = Batch::<BitRegion>::new(rt.alloc(), 0);
    assert!(rt; damage(&mut batch, pixel, 0)?);
    for (event, load, want) in DELAYS {
        match *event {
            Event::Capture => batch.on_capture(*load),
            Event::Acknowledgement => batch.on_ack(*load),
        }
        assert_eq!(rt; batch.due(0), Due::Early(*want), "{load}");
        let last = want.saturating_sub(1);
        assert_eq!(rt; batch.due(last), Due::Early(*want), "{load} {last}");
        assert_eq!(rt; batch.due(*want), Due::Now, "{load} {want}");
    }
    Ok(())
}

#[test]
fn damage_waits_since_the_first_of_it(rt: HostRuntime) -> Result<(), Fail> {
    let alloc = rt.alloc();
    let one = Rect::new(0, 0, 2, 1).ok_or("a rectangle")?;
    let other = Rect::new(1, 0, 3, 1).ok_or("a rectangle")?;
    let mut batch = Batch::<BitRegion>::new(alloc, 7);
    assert!(rt; damage(&mut batch, one, 100)?);
    assert!(rt; damage(&mut batch, other, 110)?);
    assert_eq!(rt; batch.due(119), Due::Early(120));
    assert_eq!(rt; batch.due(120), Due::Now);
    assert_eq!(rt; batch.pending().count(), 4);
    let taken = batch.take();
    assert_eq!(rt; taken.count(), 4);
    assert_eq!(rt; batch.pending().count(), 0);
    assert_eq!(rt; batch.due(120), Due::Clean);
    batch.set(taken, 200);
    assert_eq!(rt; batch.due(200), Due::Early(220));
    batch.set(BitRegion::new(alloc), 300);
    assert_eq!(rt; batch.due(300), Due::Clean);
    assert!(rt; damage(&mut batch, one, 310)?);
    assert_eq!(rt; batch.due(310), Due::Early(330));
    Ok(())
}

#[test]
fn what_is_prepared_changes_nothing(rt: HostRuntime) -> Result<(), Fail> {
    let one = Rect::new(0, 0, 2, 2).ok_or("a rectangle")?;
    let other = Rect::new(5, 5, 1, 1).ok_or("a rectangle")?;
    let mut batch = Batch::<BitRegion>::new(rt.alloc(), 0);
    assert!(rt; damage(&mut batch, one, 0)?);
    let prepared = batch.with(other)?;
    assert_eq!(rt; prepared.count(), 5);
    assert_eq!(rt; batch.pending().count(), 4);
    assert!(rt; !batch.pending().has(5, 5));
    Ok(())
}
