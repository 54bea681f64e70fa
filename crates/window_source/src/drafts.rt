// The draws of the jobs that leave once a result is kept, made before anything changes.
ghost use Rattle.std.specs.Prelude.{◌≡◌, ◌+◌, ◌≤◌, ◌<◌, ◌^◌, None, Some, length, IfOk, IfSome, MatchOption};
ghost use Rattle.xp_base.specs.Clocks.{last_moment};
ghost use Rattle.draw_sequencer.specs.Filing.{with_encoding, IsInHand};
ghost use Rattle.packet_kinds.specs.Fields.{HasFields, IsPlain, drawn_size};
ghost use Rattle.window_source.specs.Waiting.{client_limit};
ghost use Rattle.window_source.specs.Drafts.{encoding_with, IsOwnIfNamed, Draws, SaysDraw, IsDraft, Drafted};

use capture_jobs::Done;
use client_outbox::{Draw, Packet};
use draw_sequencer::{InHand, Sequencer, as_many_leave_as_are_ready};
use lossy_refresh::Lossy;
use packet_kinds::{
    ToClient, a_draw_holds_its_pixels, a_message_has_bytes, a_plain_message_has_a_small_value,
    a_plain_message_may_be_written, to_bytes,
};
use rect_regions::Points;
use rgb_encoders::{Encoded, coded_length, encoded_shows, pixel_size};
use std::alloc::Global;
use xp_base::{Bytes, Capture, NoMemory, Wid};

/// The draws, in order, and what is lossy once they are queued.
#[derive(Drop)]
pub(crate) struct Drafts<R: Points> {
    pub(crate) packets: Vec<Packet<R>>,
    pub(crate) lossy: Lossy<R>,
}

/// The draws of the jobs that leave once this result is kept, numbered from `next` on.
pub(crate) fn prepared<R: Points>(
    alloc: Global,
    wid: Wid,
    jobs: &Sequencer<R>,
    lossy: &Lossy<R>,
    done: &Done,
    next: u64,
    now: u64,
) -> Result<Drafts<R>, NoMemory>
    requires by_clock { now ≤ last_moment }
    requires numbers { next + length jobs.now.jobs < 2 ^ 63 }
    requires own { IsInHand jobs.now.jobs done.now.job.number done.now.encoding }
    ensures { let filed = with_encoding jobs.now.jobs done.now.job.number done.now.encoding in
        IfOk result (λ d. Drafted R.has wid now next filed lossy.now d.packets.items d.lossy) }
{
    as_many_leave_as_are_ready::<R>();
    let _count = jobs.len();
    let mut lossy = lossy.copy()?;
    let leaving = jobs.leaving(done.id());
    let mut packets = Vec::with_capacity(alloc, leaving as usize)?;
    for k in 0..leaving {
        let Some(job) = jobs.nth(k) else {
            unreachable!()
        };
        let Some(encoded) = encoding_in(job, done) else {
            unreachable!()
        };
        let sequence = next + k as u64;
        packets.push(draft(alloc, wid, sequence, encoded, &job.relief, &mut lossy, now)?)?;
    }
    Ok(Drafts { packets, lossy })
}

/// The encoding of a job in hand once this result is kept; `None` where it is not back.
fn encoding_in<'a, R: Points>(job: &'a InHand<R>, done: &'a Done) -> Option<&'a Encoded>
    requires own { IsOwnIfNamed done.now job.now }
    ensures own { IfSome result (λ e. e.now.capture ≡ job.now.capture) }
    ensures value { let encoded = encoding_with done.now.job.number done.now.encoding job.now in
        MatchOption result (encoded ≡ None) (λ e. encoded ≡ Some e.now) }
{
    if job.id == done.id() {
        return Some(done.encoded());
    }
    job.encoded.as_ref()
}

/// The draw of one job: an exact one also relieves the lossy points in its rectangle.
fn draft<R: Points>(
    alloc: Global,
    wid: Wid,
    sequence: u64,
    encoded: &Encoded,
    relief: &R,
    lossy: &mut Lossy<R>,
    now: u64,
) -> Result<Packet<R>, NoMemory>
    requires small { sequence < 2 ^ 63 }
    requires by_clock { now ≤ last_moment }
    ensures { IfOk result (λ p. IsDraft R.has wid now sequence encoded.now relief.now lossy.old lossy.new p) }
{
    a_message_has_bytes();
    let bytes = draw_bytes(alloc, wid, sequence, encoded)?;
    let mut joined = relief.copy()?;
    let capture: &Capture = &encoded.capture;
    let draw = Draw {
        sequence,
        rect: capture.rect,
        coding: capture.coding,
    };
    let gone = lossy.queued(draw.rect, draw.coding, now)?;
    joined.union(&gone)?;
    Ok(Packet::of_draw(wid, draw, bytes, joined))
}

/// The bytes of the draw of an encoding.
fn draw_bytes(
    alloc: Global,
    wid: Wid,
    sequence: u64,
    encoded: &Encoded,
) -> Result<Vec<u8>, NoMemory>
    requires { sequence < 2 ^ 63 }
    ensures { IfOk result (λ bytes. SaysDraw wid sequence encoded.now bytes.items) }
{
    a_plain_message_may_be_written();
    a_plain_message_has_a_small_value();
    let copy = Bytes::new(Vec::from_slice(alloc, encoded.bytes.as_slice())?);
    let message = draw_message(wid, sequence, encoded, copy);
    let bytes = to_bytes(alloc, &message)?;
    Ok(bytes)
}

/// The message of the draw of an encoding, whose bytes these are.
fn draw_message(wid: Wid, sequence: u64, encoded: &Encoded, bytes: Bytes) -> ToClient
    requires small { sequence < 2 ^ 63 }
    requires copied { bytes ≡ encoded.now.bytes }
    ensures plain { IsPlain result }
    ensures fields { HasFields result }
    ensures short { drawn_size result ≤ client_limit }
    ensures draw { Draws wid sequence encoded.now result }
{
    a_draw_holds_its_pixels();
    coded_length();
    encoded_shows(encoded);
    let _number = wid.get();
    let capture: &Capture = &encoded.capture;
    let rect = capture.rect;
    let _area = rect.area();
    ToClient::Draw {
        wid,
        x: rect.x,
        y: rect.y,
        w: rect.w,
        h: rect.h,
        coding: capture.coding,
        bytes,
        packet_sequence: sequence as i64,
        rowstride: rect.w * pixel_size(capture.coding),
    }
}
