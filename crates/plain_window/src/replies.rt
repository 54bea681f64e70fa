// Results and acknowledgements of a window that is played plainly.
ghost use Rattle.std.specs.Prelude.{◌≡◌, ◌≤◌, ◌+◌, ◌^◌, false, IfOk, IfErr, IsSome, OnOk, OnErr, bytes_eq};
ghost use Rattle.xp_base.specs.Counts.{greatest};
ghost use Rattle.delivery_model.specs.Events.{queue_ready, with_result, same_coding, same_rectangle, same_capture, filing_of, capture_of, filed, filed_as, Filed, rect_sent, without_sent, acknowledged};
ghost use Rattle.plain_window.specs.Plain.{filing_seen, ready_count, refusal_at};

use crate::parts::{PlainJob, PlainSent};
use crate::window::PlainWindow;
use std::alloc::Global;
use xp_base::{Coding, NoMemory, Rect};

fn same_coding(a: Coding, b: Coding) -> bool
    ensures { result ≡ same_coding a b }
{
    match (a, b) {
        (Coding::Exact, Coding::Exact) => true,
        (Coding::Lossy, Coding::Lossy) => true,
        _ => false,
    }
}

fn same_rectangle(a: Rect, b: Rect) -> bool
    ensures { result ≡ same_rectangle a b }
{
    (a.x == b.x && a.y == b.y) && (a.w == b.w && a.h == b.h)
}

fn same_numbers(a: &[u32], b: &[u32]) -> bool
    ensures { result ≡ bytes_eq a.now b.now }
{
    a == b
}

/// What becomes of a result: no job in hand has its number, or that job has another capture, or it is
/// filed.
#[derive(Clone, Copy, Debug, PartialEq, Eq)]
pub enum PlainFiling {
    Late,
    Foreign,
    Filed,
}

fn same_capture(job: &PlainJob, rect: Rect, coding: Coding, pixels: &[u32]) -> bool
    ensures { result ≡ same_capture job.now.capture (record { rect = rect; coding = coding; pixels = pixels.now }) }
{
    same_rectangle(job.rect, rect)
        && (same_coding(job.coding, coding) && same_numbers(job.pixels.as_slice(), pixels))
}

fn filing_of(
    jobs: &[PlainJob],
    number: u64,
    rect: Rect,
    coding: Coding,
    pixels: &[u32],
) -> PlainFiling
    ensures { filing_seen result ≡ filing_of (capture_of jobs.now number) (record { rect = rect; coding = coding; pixels = pixels.now }) }
{
    for job in jobs {
        if job.number == number {
            return if same_capture(job, rect, coding, pixels) {
                PlainFiling::Filed
            } else {
                PlainFiling::Foreign
            };
        }
    }
    PlainFiling::Late
}

/// Why a result is not filed.
#[derive(Clone, Copy, Debug, PartialEq, Eq)]
pub enum PlainRefusal {
    /// The draws that would be queued have more numbers than there are: the next one would be past the
    /// greatest `u64`.
    Spent,
    NoMemory,
}

/// How many jobs leave once the result of the one with this number is there.
fn leaving(jobs: &[PlainJob], number: u64) -> u64
    ensures { result ≡ ready_count (with_result jobs.now number) }
{
    let mut count = 0;
    let mut found = false;
    for job in jobs {
        if !found && job.number == number {
            found = true;
        } else if !job.encoded {
            return count;
        }
        count += 1;
    }
    count
}

/// The job's encoding came back. After want of memory the jobs are not to be used.
fn set_result(alloc: Global, jobs: &mut Vec<PlainJob>, number: u64) -> Result<(), NoMemory>
    ensures { OnOk result (jobs.new.items ≡ with_result jobs.old.items number) }
{
    let mut marked = Vec::new(alloc);
    let mut found = false;
    'marking: while !jobs.is_empty() {
        let mut job = jobs.remove(0);
        if !found && job.number == number {
            found = true;
            job.encoded = true;
        }
        marked.push(job)?;
    }
    *jobs = marked;
    Ok(())
}

/// The rectangle of the unacknowledged draw with this number.
fn rect_sent(sent: &[PlainSent], number: u64) -> Option<Rect>
    ensures { result ≡ rect_sent sent.now number }
{
    for one in sent {
        if one.sequence == number {
            return Some(one.rect);
        }
    }
    None
}

/// The unacknowledged draws but the first with this number.
fn without_sent(alloc: Global, sent: &[PlainSent], number: u64) -> Result<Vec<PlainSent>, NoMemory>
    ensures { IfOk result (λ v. v.items ≡ without_sent sent.now number) }
{
    let mut left = Vec::new(alloc);
    let mut found = false;
    for one in sent {
        if !found && one.sequence == number {
            found = true;
        } else {
            left.push(*one)?;
        }
    }
    Ok(left)
}

impl PlainWindow {
    /// A result: its job's number, and what it captured. Running out of sequence numbers goes before want
    /// of memory, and either comes only where the result would be filed.
    pub fn file(
        &mut self,
        alloc: Global,
        number: u64,
        rect: Rect,
        coding: Coding,
        pixels: &[u32],
        now: u64,
    ) -> Result<PlainFiling, PlainRefusal>
        requires clock { now ≤ 2 ^ 62 }
        ensures answer { IfOk result (λ f. filing_seen f ≡ filing_of (capture_of self.old.jobs number) (record { rect = rect; coding = coding; pixels = pixels.now })) }
        ensures ok { OnOk result (self.new ≡ filed number (record { rect = rect; coding = coding; pixels = pixels.now }) now self.old) }
        ensures numbered { OnOk result ((filed number (record { rect = rect; coding = coding; pixels = pixels.now }) now self.old).next_sequence ≤ greatest) }
        ensures err { OnErr result (self.new ≡ self.old) }
        ensures cause { IfErr result (λ e. e ≡ refusal_at (filed number (record { rect = rect; coding = coding; pixels = pixels.now }) now self.old).next_sequence) }
        ensures last { OnErr result (filing_of (capture_of self.old.jobs number) (record { rect = rect; coding = coding; pixels = pixels.now }) ≡ Filed) }
    {
        match filing_of(self.jobs.as_slice(), number, rect, coding, pixels) {
            PlainFiling::Late => Ok(PlainFiling::Late),
            PlainFiling::Foreign => Ok(PlainFiling::Foreign),
            PlainFiling::Filed => {
                self.file_result(alloc, number, now)?;
                Ok(PlainFiling::Filed)
            }
        }
    }

    /// The result is filed in a copy, which then takes the window's place.
    #[tactic(auto, using(crate::proofs::Ready::next_filed))]
    fn file_result(&mut self, alloc: Global, number: u64, now: u64) -> Result<(), PlainRefusal>
        requires clock { now ≤ 2 ^ 62 }
        ensures ok { OnOk result (self.new ≡ filed_as Filed number now self.old) }
        ensures err { OnErr result (self.new ≡ self.old) }
        ensures numbered { OnOk result ((filed_as Filed number now self.old).next_sequence ≤ greatest) }
        ensures cause { IfErr result (λ e. e ≡ refusal_at (filed_as Filed number now self.old).next_sequence) }
    {
        let count = leaving(self.jobs.as_slice(), number);
        if count > u64::MAX - self.next_sequence {
            return Err(PlainRefusal::Spent);
        }
        match self.filed(alloc, number, now) {
            Ok(filed) => {
                *self = filed;
                Ok(())
            }
            Err(NoMemory) => Err(PlainRefusal::NoMemory),
        }
    }

    #[tactic(auto, using(crate::proofs::Ready::ready_from))]
    fn filed(&self, alloc: Global, number: u64, now: u64) -> Result<PlainWindow, NoMemory>
        requires clock { now ≤ 2 ^ 62 }
        requires numbers { self.now.next_sequence + ready_count (with_result self.now.jobs number) ≤ greatest }
        ensures { IfOk result (λ w. w ≡ filed_as Filed number now self.now) }
    {
        let mut filed = self.copy(alloc)?;
        filed.mark(alloc, number)?;
        filed.queue_ready(alloc, now)?;
        Ok(filed)
    }

    fn mark(&mut self, alloc: Global, number: u64) -> Result<(), NoMemory>
        ensures { OnOk result (self.new ≡ record self.old { jobs = with_result self.old.jobs number }) }
    {
        set_result(alloc, &mut self.jobs, number)?;
        Ok(())
    }

    /// An acknowledgement, and whether its decode time is negative.
    pub fn acknowledge(
        &mut self,
        alloc: Global,
        number: u64,
        negative: bool,
        now: u64,
    ) -> Result<(), NoMemory>
        requires clock { now ≤ 2 ^ 62 }
        ensures ok { OnOk result (self.new ≡ acknowledged number negative now self.old) }
        ensures err { OnErr result (self.new ≡ self.old) }
        ensures last { OnErr result (IsSome (rect_sent self.old.unacknowledged number)) }
    {
        let rect = match rect_sent(self.unacknowledged.as_slice(), number) {
            None => return Ok(()),
            Some(rect) => rect,
        };
        let left = without_sent(alloc, self.unacknowledged.as_slice(), number)?;
        if negative {
            self.damage(alloc, rect, now)?;
        }
        if self.jobs.len() <= 8 && left.len() <= 8 - self.jobs.len() {
            self.delay = std::cmp::max(10, self.delay - self.delay / 4);
        }
        self.unacknowledged = left;
        Ok(())
    }

    /// The jobs at the front whose encodings came back leave in the order of their captures. After want of
    /// memory the window is not to be used.
    #[tactic(auto, using(crate::proofs::Ready::ready_next, crate::proofs::Ready::ready_done, crate::proofs::Ready::ready_none))]
    fn queue_ready(&mut self, alloc: Global, now: u64) -> Result<(), NoMemory>
        requires clock { now ≤ 2 ^ 62 }
        requires numbers { self.old.next_sequence + ready_count self.old.jobs ≤ greatest }
        ensures { OnOk result (self.new ≡ queue_ready now self.old.jobs self.old) }
    {
        while !self.jobs.is_empty() && self.jobs[0].encoded {
            let job = self.jobs.remove(0);
            self.queue(alloc, job, now)?;
        }
        Ok(())
    }
}
