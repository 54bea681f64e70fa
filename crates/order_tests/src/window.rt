// One client's view of one window: its jobs in hand, its draws that are not acknowledged, its packets.
use crate::acks::queue;
use crate::samples::{add, capture_of, point};
use ack_tracker::Acks;
use client_outbox::{Draw, Outbox, Packet};
use draw_sequencer::Sequencer;
use link_bay::{Accept, Bay, Inbound, TapeBay};
use rect_regions::BitRegion;
use rgb_encoders::{Encoded, encode};
use std::alloc::Global;
use std::fmt::Write;
use std::sync::Arc;
use std::test::Fail;
use xp_base::{Coding, JobId, Wid};

#[derive(Drop)]
struct View {
    jobs: Sequencer<BitRegion>,
    acks: Acks,
    outbox: Outbox<BitRegion>,
    wid: Wid,
    next: u64,
}

/// Queues the draw of a job that is ready, with the next sequence number.
fn queue_draw(view: &mut View, encoded: Encoded, relief: BitRegion) -> Result<(), Fail> {
    let Encoded { capture, bytes } = encoded;
    let draw = Draw {
        sequence: view.next,
        rect: capture.rect,
        coding: capture.coding,
    };
    queue(&mut view.acks, i64::try_from(view.next)?, draw.rect)?;
    if bytes.is_empty() {
        return Err(Fail::from("bytes of a draw"));
    }
    let packet = Packet::of_draw(view.wid, draw, bytes, relief);
    if view.outbox.put(packet).is_err() {
        return Err(Fail::from("a packet"));
    }
    view.next = view.next.saturating_add(1);
    Ok(())
}

/// Queues the draw of each job that is ready, in their order.
fn queue_ready(view: &mut View) -> Result<(), Fail> {
    for _ in 0..view.jobs.len() {
        let Some(ready) = view.jobs.pop_ready() else {
            return Ok(());
        };
        queue_draw(view, ready.encoded, ready.relief)?;
    }
    Ok(())
}

/// The result of a job comes back, and the draws that are then ready are queued: writes how many are then
/// unacknowledged.
fn finish(view: &mut View, alloc: Global, number: u64, out: &mut String) -> Result<(), Fail> {
    if let Some(job) = view.jobs.find(JobId(number)) {
        let encoded = encode(alloc, Arc::try_clone(&job.capture)?)?;
        view.jobs.file(JobId(number), encoded);
    }
    queue_ready(view)?;
    let load = view.acks.load();
    write!(out, "{load} ")?;
    Ok(())
}

/// Writes which of the first four points are owed.
fn put_owed(view: &View, out: &mut String) -> Result<(), Fail> {
    for x in 0..4 {
        let owed = view.jobs.owes(x, 0) || view.outbox.owes(view.wid, x, 0);
        out.push_str(if owed { "+" } else { "-" })?;
    }
    Ok(())
}

/// A connection of its own, which takes all that it is offered: writes what three sends come to, and the
/// bytes that were sent, in hexadecimal.
fn put_sent(view: &mut View, alloc: Global, out: &mut String) -> Result<(), Fail> {
    let mut tapes = Vec::new(alloc);
    tapes.push(Inbound {
        bytes: Vec::new(alloc),
        ends: false,
        piece: 1,
        quota: 65_536,
        failing_reads: Vec::new(alloc),
        failing_writes: Vec::new(alloc),
    })?;
    let mut bay = TapeBay::new(tapes, Vec::new(alloc));
    let Accept::Conn(c) = bay.accept() else {
        return Err(Fail::from("a connection"));
    };
    let first = view.outbox.send(&mut bay, c, 65_536);
    let second = view.outbox.send(&mut bay, c, 65_536);
    let third = view.outbox.send(&mut bay, c, 65_536);
    write!(out, " {first:?} {second:?} {third:?} ")?;
    for byte in bay.sent_bytes(c) {
        write!(out, "{byte:02x}")?;
    }
    Ok(())
}

/// A view with two jobs in hand, of a red point and of a green one.
fn two_jobs(alloc: Global) -> Result<View, Fail> {
    let mut view = View {
        jobs: Sequencer::new(alloc),
        acks: Acks::new(alloc),
        outbox: Outbox::new(alloc),
        wid: Wid::new(1).ok_or("a window's number")?,
        next: 2,
    };
    let red = capture_of(alloc, point(0)?, Coding::Exact, 0xff0000)?;
    let green = capture_of(alloc, point(2)?, Coding::Exact, 0x00ff00)?;
    add(&mut view.jobs, alloc, 2, red)?;
    add(&mut view.jobs, alloc, 3, green)?;
    Ok(view)
}

/// The later result comes first, and its draw waits; then the earlier one, and both go out, the earlier
/// capture first. A pixel is its blue, green and red, and 255.
fn told(alloc: Global) -> Result<String, Fail> {
    let mut view = two_jobs(alloc)?;
    let mut out = String::new(alloc);
    finish(&mut view, alloc, 3, &mut out)?;
    put_owed(&view, &mut out)?;
    put_sent(&mut view, alloc, &mut out)?;
    finish(&mut view, alloc, 2, &mut out)?;
    put_owed(&view, &mut out)?;
    put_sent(&mut view, alloc, &mut out)?;
    put_owed(&view, &mut out)?;
    Ok(out)
}

#[test]
fn a_later_result_waits_for_an_earlier_capture(rt: HostRuntime) -> Result<(), Fail> {
    let told = told(rt.alloc())?;
    let want = "0 +-+- Idle Idle Idle 2 +-+- Took(4) Took(4) Idle 0000ffff00ff00ff----";
    assert_eq!(rt; told.as_str(), want);
    Ok(())
}
