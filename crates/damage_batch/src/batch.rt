// The damage of one window of one client.
ghost use Rattle.std.specs.Prelude.{◌≡◌, ◌≤◌, ◌↔◌, IsTrue, IfOk};
ghost use Rattle.xp_base.specs.Clocks.{last_moment};
ghost use Rattle.xp_base.specs.Points.{is_in};
ghost use Rattle.rect_regions.specs.PointSets.{SamePoints, HasNone, united};
ghost use Rattle.damage_batch.specs.Delay.{AreTimes};
ghost use Rattle.damage_batch.specs.Pending.{IsFresh, IsSince, Puts, Empties, IsDue, slowed, quickened};

use rect_regions::Points;
use std::alloc::Global;
use std::marker::Model;
use std::mem;
use xp_base::{Due, NoMemory, Rect};

/// How long damage waits at first, at least and at most, in milliseconds.
const FIRST_DELAY: u64 = 20;

const LEAST_DELAY: u64 = 10;

const GREATEST_DELAY: u64 = 500;

/// The points of a window that were damaged and not yet captured. They wait, so that one capture takes
/// the damage of some time together: longer where much is on its way to the client.
#[derive(Drop)]
pub struct Batch<R: Points> {
    alloc: Global,
    pending: R,
    /// Since when something is pending, in milliseconds.
    since: u64,
    /// From then to the earliest capture, in milliseconds.
    delay: u64,
}

impl<R: Points> Model for Batch<R> {
    ghost use Rattle.damage_batch.specs.Pending.{BatchSeen};
    ghost use Rattle.damage_batch.specs.Delay.{AreTimes};

    ghost Value = { BatchSeen R };

    ghost view = { λ b. record { pending = b.pending; since = b.since; delay = b.delay } };

    ghost invariant = { λ b. AreTimes b.since b.delay };
}

impl<R: Points> Batch<R> {
    /// Nothing is pending. It takes no memory. The moment is one of a clock that stops at 2^62
    /// milliseconds, here and in `set`.
    pub fn new(alloc: Global, now: u64) -> Batch<R>
        requires by_clock { now ≤ last_moment }
        ensures { IsFresh R.has now result }
    {
        Batch {
            alloc,
            pending: R::new(alloc),
            since: now,
            delay: FIRST_DELAY,
        }
    }

    /// What is pending, and the rectangle: to be put in by `set`.
    pub fn with(&self, r: Rect) -> Result<R, NoMemory>
        ensures { IfOk result (λ pending. SamePoints (R.has pending) (united (R.has self.now.pending) (is_in r))) }
    {
        let mut pending = self.pending.copy()?;
        pending.union_rect(r)?;
        Ok(pending)
    }

    /// These points are pending in place of those that were. It takes no memory.
    pub fn set(&mut self, pending: R, now: u64)
        requires by_clock { now ≤ last_moment }
        ensures { Puts R.has self.old pending now self.new }
    {
        self.since = self.since_with(&pending, now);
        self.pending = pending;
    }

    // Since when something is pending, once these points are.
    fn since_with(&self, pending: &R, now: u64) -> u64
        ensures { IsSince R.has self.now pending.now now result }
    {
        if !is_empty(&self.pending) {
            return self.since;
        }
        if is_empty(pending) {
            return self.since;
        }
        now
    }

    /// Whether what is pending may be captured now.
    pub fn due(&self, now: u64) -> Due
        ensures { IsDue R.has self.now now result }
    {
        if is_empty(&self.pending) {
            return Due::Clean;
        }
        let earliest = self.since + self.delay;
        if now < earliest {
            return Due::Early(earliest);
        }
        Due::Now
    }

    /// Takes all that is pending, for a capture. It takes no memory.
    pub fn take(&mut self) -> R
        ensures taken { result ≡ self.old.pending }
        ensures left { Empties R.has self.old self.new }
    {
        mem::replace(&mut self.pending, R::new(self.alloc))
    }

    pub fn pending(&self) -> &R
        ensures value { result.now ≡ self.now.pending }
        ensures kept { AreTimes self.now.since self.now.delay }
    {
        &self.pending
    }

    /// The window was captured. The load is that before it: jobs in hand, and draws that were queued and
    /// are not acknowledged.
    pub fn on_capture(&mut self, load: u32)
        ensures { self.new ≡ slowed load self.old }
    {
        if load >= 32 {
            self.delay = (2 * self.delay).min(GREATEST_DELAY);
        }
    }

    /// A draw of the window was acknowledged. The load is that without it.
    pub fn on_ack(&mut self, load: u32)
        ensures { self.new ≡ quickened load self.old }
    {
        if load <= 8 {
            self.delay = (self.delay - self.delay / 4).max(LEAST_DELAY);
        }
    }
}

/// Whether there are no points.
fn is_empty<R: Points>(points: &R) -> bool
    ensures { IsTrue result ↔ HasNone (R.has points.now) }
{
    points.bounds().is_none()
}
