// Runs of small windows: how many points are owed after each thing that happens.
use crate::{PlainCapture, PlainFiling, PlainPlanned, PlainRefusal, PlainWindow};
use point_grids::{OneNumber, PixelGrid};
use std::alloc::Global;
use std::test::Fail;
use xp_base::{Coding, NoMemory, Rect};

const WHITE: u32 = 0xff_ffff;

const RED: u32 = 0xff_0000;

const GREEN: u32 = 0x00_ff00;

const BLUE: u32 = 0x00_00ff;

/// A rectangle's left edge, top edge, width and height, in pixels.
type Sides = [u32; 4];

/// A thing that happens to a window. Damage is at 500 milliseconds. Numbers are those of the whole window
/// where it is painted, and those of the rectangle where a result is filed.
#[derive(Clone, Copy, Debug)]
enum Step {
    Paint(Sides, [u32; 6]),
    /// The rectangle of the plan, its coding, the job's number, and the answer that is wanted. At 1,000
    /// milliseconds, with nothing on the connection.
    Capture(Sides, Coding, u64, PlainCapture),
    /// The rectangles of the plan, which are coded exactly, and the first job's number.
    CaptureTwo(Sides, Sides, u64),
    /// The moment, the connection's weight, the rectangle, the job's number, and the answer.
    CaptureAt(u64, u64, Sides, u64, PlainCapture),
    /// The job's number, what it captured, and the answer that is wanted.
    File(u64, Sides, Coding, [u32; 6], PlainFiling),
    /// How many bytes were left of the front packet, and how many were taken.
    Write(u32, u32),
    /// The draw's number, and whether the time is negative.
    Acknowledge(u64, bool),
    Map,
    Unmap,
    Recall,
    Refresh,
    /// The new size.
    Resize(Sides),
    Close,
}

use Coding::{Exact, Lossy};
use PlainCapture::{Clean, Early, Heavy, Jobs, Spent, Unmapped};
use PlainFiling::{Filed, Foreign, Late};
use Step::{
    Acknowledge, Capture, CaptureAt, CaptureTwo, Close, File, Map, Paint, Recall, Refresh, Resize,
    Unmap, Write,
};

/// What was done before a run: the window was started, or announced and mapped too, or shown too.
#[derive(Clone, Copy, Debug, PartialEq, Eq)]
enum Before {
    Started,
    Mapped,
    Shown,
}

use Before::{Mapped, Shown, Started};

fn rect(sides: Sides) -> Result<Rect, Fail> {
    match Rect::new(sides[0], sides[1], sides[2], sides[3]) {
        Some(rect) => Ok(rect),
        None => Err(Fail::from("no rectangle")),
    }
}

fn first(numbers: &[u32; 6], rect: Rect) -> &[u32] {
    let count = rect.w.saturating_mul(rect.h);
    if count < 6 {
        &numbers[..count as usize]
    } else {
        numbers
    }
}

fn exactly(sides: Sides) -> Result<PlainPlanned, Fail> {
    let rect = rect(sides)?;
    Ok(PlainPlanned {
        rect,
        coding: Exact,
    })
}

fn wanted(answer: PlainCapture, want: PlainCapture) -> Result<(), Fail> {
    if answer == want {
        Ok(())
    } else {
        Err(Fail::from("another answer to a capture"))
    }
}

fn capture(alloc: Global, window: &mut PlainWindow, step: Step) -> Result<(), Fail> {
    match step {
        Capture(sides, coding, number, want) => {
            let rect = rect(sides)?;
            let plan = [PlainPlanned { rect, coding }];
            wanted(window.capture(alloc, &plan, number, 1000, 0)?, want)
        }
        CaptureTwo(one, two, number) => {
            let plan = [exactly(one)?, exactly(two)?];
            wanted(window.capture(alloc, &plan, number, 1000, 0)?, Jobs(2))
        }
        CaptureAt(now, weight, sides, number, want) => {
            let plan = [exactly(sides)?];
            wanted(window.capture(alloc, &plan, number, now, weight)?, want)
        }
        _ => Ok(()),
    }
}

fn file(alloc: Global, window: &mut PlainWindow, step: Step) -> Result<(), Fail> {
    if let File(number, sides, coding, numbers, want) = step {
        let rect = rect(sides)?;
        return match window.file(alloc, number, rect, coding, first(&numbers, rect), 500) {
            Ok(filing) if filing == want => Ok(()),
            Ok(_) => Err(Fail::from("another answer to a result")),
            Err(PlainRefusal::NoMemory) => Err(Fail::from(NoMemory)),
            Err(PlainRefusal::Spent) => Err(Fail::from("numbers have run out")),
        };
    }
    Ok(())
}

fn make(alloc: Global, window: &mut PlainWindow, step: Step) -> Result<(), Fail> {
    match step {
        Paint(sides, numbers) => window.paint(alloc, rect(sides)?, &numbers, 500)?,
        Write(left, taken) => window.write(alloc, left, taken)?,
        Acknowledge(number, negative) => window.acknowledge(alloc, number, negative, 500)?,
        Map => window.map(),
        Unmap => window.unmap(alloc, 500)?,
        Recall => window.recall(alloc, 500)?,
        Refresh => window.refresh(alloc, 500)?,
        Resize(sides) => window.resize(alloc, rect(sides)?, 500)?,
        Capture(..) | CaptureTwo(..) | CaptureAt(..) => capture(alloc, window, step)?,
        File(..) => file(alloc, window, step)?,
        Close => {}
    }
    Ok(())
}

// A black window.
fn window_of(alloc: Global, before: Before, sides: Sides) -> Result<PlainWindow, Fail> {
    let size = rect(sides)?;
    let desk = PixelGrid::of(alloc, size.w, size.h, &OneNumber { number: 0 })?;
    let mut window = PlainWindow::start(alloc, desk, 0)?;
    if before == Started {
        return Ok(window);
    }
    for step in [Write(40, 40), Map] {
        make(alloc, &mut window, step)?;
    }
    if before == Shown {
        for step in [
            Capture(sides, Exact, 1, Jobs(1)),
            File(1, sides, Exact, [0; 6], Filed),
            Write(79, 79),
            Acknowledge(1, false),
        ] {
            make(alloc, &mut window, step)?;
        }
    }
    Ok(window)
}

// Each step of the run leaves so many points owed.
fn play(alloc: Global, before: Before, sides: Sides, run: &[(Step, usize)]) -> Result<(), Fail> {
    let mut slot = Some(window_of(alloc, before, sides)?);
    for (step, owed) in run {
        if let Some(window) = &mut slot {
            make(alloc, window, *step)?;
        }
        if let Close = step {
            PlainWindow::close(&mut slot);
        }
        let count = match &slot {
            Some(window) => window.owed_count(alloc)?,
            None => 0,
        };
        if count != *owed {
            return Err(Fail::from("another number of points is owed"));
        }
    }
    Ok(())
}

// Results that come in the other order leave in the order of their captures.
#[test]
fn a_later_result_waits(rt: HostRuntime) -> Result<(), Fail> {
    let run = [
        (Paint([0, 0, 1, 1], [RED, 0, 0, 0, 0, 0]), 1),
        (Paint([2, 0, 1, 1], [RED, 0, GREEN, 0, 0, 0]), 2),
        (CaptureTwo([0, 0, 1, 1], [2, 0, 1, 1], 2), 2),
        (
            File(3, [2, 0, 1, 1], Exact, [GREEN, 0, 0, 0, 0, 0], Filed),
            2,
        ),
        (Write(79, 79), 2),
        (File(2, [0, 0, 1, 1], Exact, [RED, 0, 0, 0, 0, 0], Filed), 2),
        (Write(79, 79), 1),
        (Write(79, 79), 0),
        (Write(79, 79), 0),
    ];
    play(rt.alloc(), Shown, [0, 0, 4, 1], &run)
}

// An unmap cancels the job, and what it would have relieved is still owed.
#[test]
fn an_unmap_while_encoding(rt: HostRuntime) -> Result<(), Fail> {
    let run = [
        (Paint([0, 0, 2, 1], [RED, RED, 0, 0, 0, 0]), 2),
        (Capture([0, 0, 2, 1], Exact, 2, Jobs(1)), 2),
        (Unmap, 2),
        (Capture([0, 0, 2, 1], Exact, 3, Unmapped), 2),
        (Paint([3, 0, 1, 1], [RED, RED, 0, GREEN, 0, 0]), 3),
        (Map, 3),
        (
            File(2, [0, 0, 2, 1], Exact, [RED, RED, 0, 0, 0, 0], Late),
            3,
        ),
    ];
    play(rt.alloc(), Shown, [0, 0, 4, 1], &run)
}

// A point that is painted while its job is in hand is owed after the draw was written.
#[test]
fn a_paint_while_encoding(rt: HostRuntime) -> Result<(), Fail> {
    let run = [
        (Paint([0, 0, 1, 1], [RED, 0, 0, 0, 0, 0]), 1),
        (Capture([0, 0, 1, 1], Exact, 2, Jobs(1)), 1),
        (Paint([0, 0, 1, 1], [BLUE, 0, 0, 0, 0, 0]), 1),
        (
            File(2, [0, 0, 1, 1], Exact, [BLUE, 0, 0, 0, 0, 0], Foreign),
            1,
        ),
        (File(2, [0, 0, 1, 1], Exact, [RED, 0, 0, 0, 0, 0], Filed), 1),
        (Write(79, 79), 1),
    ];
    play(rt.alloc(), Shown, [0, 0, 1, 1], &run)
}

// A resize that makes the client's window anew owes all of it, and the result is late.
#[test]
fn a_resize_while_encoding(rt: HostRuntime) -> Result<(), Fail> {
    let run = [
        (Capture([0, 0, 4, 4], Exact, 1, Jobs(1)), 16),
        (Resize([0, 0, 2, 2]), 4),
        (File(1, [0, 0, 4, 4], Exact, [0; 6], Late), 4),
    ];
    play(rt.alloc(), Mapped, [0, 0, 4, 4], &run)
}

// A job that covers more than it relieves owes what it relieves.
#[test]
fn one_rectangle_for_many(rt: HostRuntime) -> Result<(), Fail> {
    let run = [
        (Paint([0, 0, 1, 1], [BLUE, 0, 0, 0, 0, 0]), 1),
        (Paint([2, 0, 1, 1], [BLUE, 0, BLUE, 0, 0, 0]), 2),
        (Paint([4, 0, 1, 1], [BLUE, 0, BLUE, 0, BLUE, 0]), 3),
        (Capture([0, 0, 5, 1], Exact, 2, Jobs(1)), 3),
        (
            File(2, [0, 0, 5, 1], Exact, [BLUE, 0, BLUE, 0, BLUE, 0], Filed),
            3,
        ),
        (Write(79, 79), 0),
    ];
    play(rt.alloc(), Shown, [0, 0, 6, 1], &run)
}

// A lossy draw leaves its rectangle owed until an exact one was written.
#[test]
fn a_lossy_draw_and_then_an_exact_one(rt: HostRuntime) -> Result<(), Fail> {
    let run = [
        (Capture([0, 0, 2, 2], Lossy, 1, Jobs(1)), 4),
        (File(1, [0, 0, 2, 2], Lossy, [0; 6], Filed), 4),
        (Capture([0, 0, 2, 2], Exact, 2, Clean), 4),
        (Write(79, 79), 4),
        (Acknowledge(1, false), 4),
        (CaptureAt(749, 0, [0, 0, 2, 2], 2, Early(750)), 4),
        (CaptureAt(750, 0, [0, 0, 2, 2], 2, Jobs(1)), 4),
        (File(2, [0, 0, 2, 2], Exact, [0; 6], Filed), 4),
        (Write(79, 79), 0),
    ];
    play(rt.alloc(), Mapped, [0, 0, 2, 2], &run)
}

// An exact draw over a part of a waiting lossy one repairs that part.
#[test]
fn an_exact_draw_over_a_lossy_one(rt: HostRuntime) -> Result<(), Fail> {
    let run = [
        (Capture([0, 0, 2, 2], Lossy, 1, Jobs(1)), 4),
        (Paint([0, 0, 1, 1], [WHITE, 0, 0, 0, 0, 0]), 4),
        (Capture([0, 0, 1, 1], Exact, 2, Jobs(1)), 4),
        (File(1, [0, 0, 2, 2], Lossy, [0; 6], Filed), 4),
        (
            File(2, [0, 0, 1, 1], Exact, [WHITE, 0, 0, 0, 0, 0], Filed),
            4,
        ),
        (Write(79, 79), 4),
        (Write(79, 79), 3),
        (Capture([0, 0, 2, 2], Exact, 3, Jobs(1)), 3),
        (
            File(3, [0, 0, 2, 2], Exact, [WHITE, 0, 0, 0, 0, 0], Filed),
            3,
        ),
        (Write(79, 79), 0),
    ];
    play(rt.alloc(), Mapped, [0, 0, 2, 2], &run)
}

// A resize that keeps the overlap owes the new points alone.
#[test]
fn a_window_that_grows(rt: HostRuntime) -> Result<(), Fail> {
    let run = [
        (Paint([0, 0, 4, 1], [WHITE; 6]), 4),
        (Capture([0, 0, 4, 1], Exact, 1, Jobs(1)), 4),
        (File(1, [0, 0, 4, 1], Exact, [WHITE; 6], Filed), 4),
        (Write(79, 79), 0),
        (Resize([0, 0, 6, 1]), 2),
    ];
    play(rt.alloc(), Mapped, [0, 0, 4, 1], &run)
}

// A draw that waits in front of two resizes repairs what survives both.
#[test]
fn a_window_that_shrinks_and_grows(rt: HostRuntime) -> Result<(), Fail> {
    let run = [
        (Paint([0, 0, 4, 1], [BLUE; 6]), 4),
        (Capture([0, 0, 4, 1], Exact, 2, Jobs(1)), 4),
        (File(2, [0, 0, 4, 1], Exact, [BLUE; 6], Filed), 4),
        (Resize([0, 0, 2, 1]), 2),
        (Resize([0, 0, 4, 1]), 4),
        (Write(92, 92), 2),
    ];
    play(rt.alloc(), Shown, [0, 0, 4, 1], &run)
}

// Jobs given back are owed as before, a refresh owes all, and a part of a packet counts for nothing.
#[test]
fn jobs_given_back_and_a_refresh(rt: HostRuntime) -> Result<(), Fail> {
    let run = [
        (Capture([0, 0, 1, 1], Exact, 1, Jobs(1)), 1),
        (Recall, 1),
        (Refresh, 1),
        (Capture([0, 0, 1, 1], Exact, 2, Jobs(1)), 1),
        (File(2, [0, 0, 1, 1], Exact, [0; 6], Filed), 1),
        (Write(79, 78), 1),
        (Write(1, 1), 0),
    ];
    play(rt.alloc(), Mapped, [0, 0, 1, 1], &run)
}

// What was shown exactly is not owed, however it is painted by the client; a negative time owes it
// once, and the second acknowledgement is a stray.
#[test]
fn a_client_that_could_not_paint(rt: HostRuntime) -> Result<(), Fail> {
    let run = [
        (Capture([0, 0, 2, 2], Exact, 1, Jobs(1)), 4),
        (File(1, [0, 0, 2, 2], Exact, [0; 6], Filed), 4),
        (Write(79, 79), 0),
        (Acknowledge(1, true), 4),
        (Capture([0, 0, 2, 2], Exact, 2, Jobs(1)), 4),
        (File(2, [0, 0, 2, 2], Exact, [0; 6], Filed), 4),
        (Write(79, 79), 0),
        (Acknowledge(1, true), 0),
    ];
    play(rt.alloc(), Mapped, [0, 0, 2, 2], &run)
}

// What a capture answers: before the map, at first, with the job in hand, and directly after damage.
#[test]
fn answers_to_captures(rt: HostRuntime) -> Result<(), Fail> {
    let run = [
        (Write(40, 40), 1),
        (CaptureAt(500, 0, [0, 0, 1, 1], 1, Unmapped), 1),
        (Map, 1),
        (CaptureAt(500, 0, [0, 0, 1, 1], 1, Jobs(1)), 1),
        (CaptureAt(500, 0, [0, 0, 1, 1], 2, Clean), 1),
        (Paint([0, 0, 1, 1], [BLUE, 0, 0, 0, 0, 0]), 1),
        (CaptureAt(500, 0, [0, 0, 1, 1], 2, Early(520)), 1),
        (CaptureAt(519, 0, [0, 0, 1, 1], 2, Early(520)), 1),
        (
            CaptureAt(520, 33_554_432, [0, 0, 1, 1], 1 << 62, Heavy(33_554_432)),
            1,
        ),
        (CaptureAt(520, 33_554_431, [0, 0, 1, 1], 1 << 62, Spent), 1),
        (
            CaptureAt(520, 33_554_431, [0, 0, 1, 1], (1 << 62) - 1, Jobs(1)),
            1,
        ),
    ];
    play(rt.alloc(), Started, [0, 0, 1, 1], &run)
}

// From 64 jobs in hand and draws that are not acknowledged on a capture is refused; from 32 on the
// delay doubles, up to 500.
#[test]
fn a_client_that_acknowledges_nothing(rt: HostRuntime) -> Result<(), Fail> {
    let alloc = rt.alloc();
    let mut window = window_of(alloc, Mapped, [0, 0, 1, 1])?;
    for number in 1..65 {
        for step in [Capture([0, 0, 1, 1], Exact, number, Jobs(1)), Refresh] {
            make(alloc, &mut window, step)?;
        }
    }
    assert_eq!(rt; window.delay, 500);
    let refused = PlainCapture::Congested(64);
    make(
        alloc,
        &mut window,
        Capture([0, 0, 1, 1], Exact, 65, refused),
    )
}

// A window that is closed owes nothing, and nothing happens to it any more.
#[test]
fn a_window_that_is_closed(rt: HostRuntime) -> Result<(), Fail> {
    let run = [
        (Paint([0, 0, 2, 1], [RED; 6]), 2),
        (Capture([0, 0, 2, 1], Exact, 2, Jobs(1)), 2),
        (Close, 0),
        (Paint([0, 0, 2, 1], [RED; 6]), 0),
        (Close, 0),
    ];
    play(rt.alloc(), Shown, [0, 0, 4, 1], &run)
}

// Where a draw would take the last sequence number its result is refused, and the window stays.
#[test]
fn the_last_sequence_number(rt: HostRuntime) -> Result<(), Fail> {
    let alloc = rt.alloc();
    let mut window = window_of(alloc, Mapped, [0, 0, 1, 1])?;
    make(alloc, &mut window, Capture([0, 0, 1, 1], Exact, 1, Jobs(1)))?;
    window.next_sequence = u64::MAX;
    match window.file(alloc, 1, rect([0, 0, 1, 1])?, Exact, &[0], 500) {
        Err(PlainRefusal::Spent) => {}
        _ => return Err(Fail::from("another answer to a result")),
    }
    window.next_sequence = u64::MAX - 1;
    make(
        alloc,
        &mut window,
        File(1, [0, 0, 1, 1], Exact, [0; 6], Filed),
    )
}
