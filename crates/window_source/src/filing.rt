// A result is filed.
ghost use Rattle.std.specs.Prelude.{◌≡◌, ◌+◌, ◌≤◌, ◌<◌, ◌^◌, ◌++◌, ◌↔◌, length, take, IsTrue, OnOk};
ghost use Rattle.xp_base.specs.Clocks.{last_moment};
ghost use Rattle.draw_sequencer.specs.Filing.{with_encoding, IsInHand};
ghost use Rattle.window_source.specs.Kept.{AreSentBefore};
ghost use Rattle.window_source.specs.Drawn.{FileGives};
ghost use Rattle.window_source.specs.Drafts.{PutsAll, staying_jobs, sent_from};

use crate::drafts::{Drafts, prepared};
use crate::source::WindowSource;
use crate::standing::Standing;
use ack_tracker::{Acks, the_greatest_number_goes_last};
use capture_jobs::{Done, Filed};
use client_outbox::{Outbox, Packet};
use delivery_model::points_are_their_tests;
use draw_sequencer::{Kept, Sequencer};
use lossy_refresh::draws_are_the_models;
use rect_regions::Points;
use std::collections::VecDeque;
use xp_base::NoMemory;

/// Sequence numbers are below this one.
const LAST_SEQUENCE: u64 = 9_223_372_036_854_775_808;

impl<R: Points> WindowSource<R> {
    /// Whether `file` may be called: there are sequence numbers for all jobs in hand.
    pub fn may_file(&self) -> bool
        ensures { IsTrue result ↔ (self.now.next_sequence + length self.now.jobs < 2 ^ 63) }
    {
        self.next_sequence < LAST_SEQUENCE - self.jobs.len() as u64
    }

    /// A result comes back. It is kept with its job; while the first job in hand has its result that job leaves, and its
    /// draw is put behind all that wait, with the next sequence number. All memory is found before the result is taken
    /// apart, so one that is not kept is handed back whole, but for a late one.
    pub fn file(&mut self, done: Done, now: u64, out: &mut Outbox<R>) -> Filed
        requires by_clock { now ≤ last_moment }
        requires numbers { self.old.next_sequence + length self.old.jobs < 2 ^ 63 }
        ensures { FileGives R.has done now self.old self.new out.old.waiting out.new.waiting result }
    {
        match self.standing(&done) {
            Standing::Late => return Filed::Late,
            Standing::Foreign => return Filed::Foreign(done),
            Standing::Own => {}
        }
        points_are_their_tests();
        draws_are_the_models::<R>();
        // For the proof: the encoding is that of the job's capture.
        let _encoding = done.encoded();
        let next = self.next_sequence;
        let Ok(made) = prepared(
            self.alloc,
            self.wid,
            &self.jobs,
            &self.lossy,
            &done,
            next,
            now,
        ) else {
            return Filed::Back(done);
        };
        let Drafts { packets, lossy } = made;
        let count = packets.len() as u32;
        if reserve(&mut self.acks, out, count).is_err() {
            return Filed::Back(done);
        }
        keep(&mut self.jobs, done);
        note_sent(&self.jobs, &mut self.acks, next, count);
        leave(&mut self.jobs);
        put_all(out, packets);
        self.lossy = lossy;
        self.next_sequence = next + count as u64;
        Filed::Filed
    }
}

/// Room for so many draws.
fn reserve<R: Points>(acks: &mut Acks, out: &mut Outbox<R>, count: u32) -> Result<(), NoMemory>
    ensures draws { acks.new.draws ≡ acks.old.draws }
    ensures waiting { out.new.waiting ≡ out.old.waiting }
    ensures acks { OnOk result (count ≤ acks.new.room) }
    ensures out { OnOk result (count ≤ out.new.room) }
{
    acks.reserve(count)?;
    out.reserve(count)
}

/// The result is kept with its job.
fn keep<R: Points>(jobs: &mut Sequencer<R>, done: Done)
    requires own { IsInHand jobs.old.jobs done.job.number done.encoding }
    ensures { jobs.new.jobs ≡ with_encoding jobs.old.jobs done.job.number done.encoding }
{
    let id = done.id();
    match jobs.file(id, done.into_encoded()) {
        Kept::Kept => {}
        Kept::Late => unreachable!(),
        Kept::Foreign(_) => unreachable!(),
    }
}

/// The draws of the first jobs are unacknowledged from now on, numbered from `next` on.
fn note_sent<R: Points>(jobs: &Sequencer<R>, acks: &mut Acks, next: u64, count: u32)
    requires some { count ≤ length jobs.now.jobs }
    requires room { count ≤ acks.old.room }
    requires before { AreSentBefore next acks.old.draws }
    requires few { length acks.old.draws + count ≤ 2 ^ 31 }
    requires numbers { next + count < 2 ^ 63 }
    ensures { acks.new.draws ≡ acks.old.draws ++ sent_from next (take count jobs.now.jobs) }
{
    the_greatest_number_goes_last();
    for k in 0..count {
        let Some(job) = jobs.nth(k) else {
            unreachable!()
        };
        match acks.queued(next + k as u64, job.capture.rect) {
            Ok(()) => {}
            Err(_) => unreachable!(),
        }
    }
}

/// The jobs at the front that have their results leave.
fn leave<R: Points>(jobs: &mut Sequencer<R>)
    ensures { jobs.new.jobs ≡ staying_jobs jobs.old.jobs }
{
    while let Some(_ready) = jobs.pop_ready() {}
}

/// Puts these packets behind all others. There is room for them.
fn put_all<R: Points>(out: &mut Outbox<R>, packets: Vec<Packet<R>>)
    requires room { length packets.items ≤ out.old.room }
    ensures { PutsAll packets.items out.old.waiting out.new.waiting }
{
    let mut packets = VecDeque::from_vec(packets);
    while let Some(packet) = packets.pop_front() {
        if out.put(packet).is_err() {
            unreachable!();
        }
    }
}
