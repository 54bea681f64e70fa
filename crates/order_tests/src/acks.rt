// The draws that are not acknowledged.
use crate::samples::point;
use ack_tracker::Acks;
use std::alloc::Global;
use std::fmt::Write;
use std::test::Fail;
use xp_base::Rect;

/// Queues a draw where its number may be: whether it may.
pub fn queue(acks: &mut Acks, sequence: i64, rect: Rect) -> Result<bool, Fail> {
    if acks.rect_of(sequence).is_some() || acks.load() >= 1000 {
        return Ok(false);
    }
    let Ok(number) = u64::try_from(sequence) else {
        return Ok(false);
    };
    acks.queued(number, rect)?;
    Ok(true)
}

/// What is done with a draw's number.
#[derive(Clone, Copy)]
enum Step {
    /// A draw is queued with it, of the pixel in the column of the number.
    Queue(i64),
    /// It is acknowledged, with this time.
    Ack(i64, i64),
    /// It is looked for.
    Find(i64),
}

/// How many draws are queued first, with the numbers from 1 on; what is then done; and what is told of each
/// step, with how many draws are unacknowledged after it. The first row acknowledges them in any order; the
/// second has each draw in the place of its number; in the third a draw that a client could not draw is
/// drawn again once.
const CASES: &[(i64, &[Step], &str)] = &[
    (
        95,
        &[
            Step::Find(7),
            Step::Queue(7),
            Step::Ack(7, -1),
            Step::Ack(7, -1),
            Step::Ack(95, 0),
            Step::Ack(1, i64::MAX),
            Step::Ack(50, 3),
            Step::Ack(0, 0),
            Step::Ack(96, 0),
            Step::Ack(-7, 0),
            Step::Ack(i64::MAX, 0),
            Step::Ack(i64::MIN, -1),
        ],
        "at 7 95; refused 95; Again(Rect { x: 7, y: 0, w: 1, h: 1 }) 94; Stray 94; Counted 93; Counted 92; Counted 91; \
        Stray 91; Stray 91; Stray 91; Stray 91; Stray 91; ",
    ),
    (
        0,
        &[
            Step::Queue(20),
            Step::Queue(10),
            Step::Queue(30),
            Step::Find(10),
            Step::Find(20),
            Step::Find(30),
            Step::Find(-10),
        ],
        "queued 1; queued 2; queued 3; at 10 3; at 20 3; at 30 3; none 3; ",
    ),
    (
        0,
        &[
            Step::Queue(1),
            Step::Ack(1, -1),
            Step::Ack(1, -1),
            Step::Queue(1),
            Step::Ack(1, 0),
        ],
        "queued 1; Again(Rect { x: 1, y: 0, w: 1, h: 1 }) 0; Stray 0; queued 1; Counted 0; ",
    ),
];

/// The column of a draw's number.
fn column(sequence: i64) -> Result<Rect, Fail> {
    point(u32::try_from(sequence)?)
}

/// Does it, and writes what came of it.
fn act(acks: &mut Acks, step: Step, out: &mut String) -> Result<(), Fail> {
    match step {
        Step::Queue(sequence) => {
            let rect = column(sequence)?;
            out.push_str(if queue(acks, sequence, rect)? {
                "queued"
            } else {
                "refused"
            })?;
        }
        Step::Ack(sequence, time) => {
            let answer = acks.ack(sequence, time);
            write!(out, "{answer:?}")?;
        }
        Step::Find(sequence) => find(acks, sequence, out)?,
    }
    Ok(())
}

/// Writes the column of the draw with this number.
fn find(acks: &Acks, sequence: i64, out: &mut String) -> Result<(), Fail> {
    match acks.rect_of(sequence) {
        Some(rect) => {
            let x = rect.x;
            write!(out, "at {x}")?;
        }
        None => out.push_str("none")?,
    }
    Ok(())
}

fn told(alloc: Global, first: i64, steps: &[Step]) -> Result<String, Fail> {
    let mut acks = Acks::new(alloc);
    let mut out = String::new(alloc);
    acks.reserve(3)?;
    for sequence in 1..=first {
        let rect = column(sequence)?;
        queue(&mut acks, sequence, rect)?;
    }
    for step in steps {
        act(&mut acks, *step, &mut out)?;
        let load = acks.load();
        write!(out, " {load}; ")?;
    }
    Ok(out)
}

#[test]
fn draws_are_queued_found_and_acknowledged(rt: HostRuntime) -> Result<(), Fail> {
    for (first, steps, want) in CASES {
        assert_eq!(rt; told(rt.alloc(), *first, steps)?.as_str(), *want);
    }
    Ok(())
}
