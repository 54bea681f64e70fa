// The lossy points of one window of one client.
ghost use Rattle.std.specs.Prelude.{◌≡◌, ◌≤◌, ◌↔◌, IsTrue, IfOk, OnErr};
ghost use Rattle.xp_base.specs.Clocks.{last_moment};
ghost use Rattle.rect_regions.specs.PointSets.{HasNone};
ghost use Rattle.lossy_refresh.specs.LossyPoints.{IsFresh, IsSame, Clears, AreAmong, keeping, Queues, IsDue};

use rect_regions::Points;
use std::alloc::Global;
use std::marker::Model;
use xp_base::{Coding, Due, NoMemory, Rect};

/// From the last lossy draw to the earliest refresh, in milliseconds.
const QUIET: u64 = 250;

/// The points of a window that its client shows, or will show, by a lossy draw. They are drawn again
/// exactly once no lossy draw came for some time.
#[derive(Drop)]
pub struct Lossy<R: Points> {
    alloc: Global,
    points: R,
    /// When the last lossy draw was queued, in milliseconds.
    since: u64,
}

impl<R: Points> Model for Lossy<R> {
    ghost use Rattle.std.specs.Prelude.{◌≤◌};
    ghost use Rattle.xp_base.specs.Clocks.{last_moment};
    ghost use Rattle.lossy_refresh.specs.LossyPoints.{LossySeen};

    ghost Value = { LossySeen R };

    ghost view = { λ l. record { points = l.points; since = l.since } };

    ghost invariant = { λ l. l.since ≤ last_moment };
}

impl<R: Points> Lossy<R> {
    /// No point is lossy. It takes no memory.
    pub fn new(alloc: Global) -> Lossy<R>
        ensures { IsFresh R.has result }
    {
        Lossy {
            alloc,
            points: R::new(alloc),
            since: 0,
        }
    }

    /// A draw of this rectangle and coding was queued. The answer are the points that stopped being
    /// lossy, which the draw repairs. The moment is one of a clock that stops at 2^62 milliseconds.
    pub fn queued(&mut self, r: Rect, c: Coding, now: u64) -> Result<R, NoMemory>
        requires by_clock { now ≤ last_moment }
        ensures ok { IfOk result (λ gone. Queues R.has r c now self.old self.new gone) }
        ensures err { OnErr result (IsSame R.has self.old self.new) }
    {
        match c {
            Coding::Exact => {
                let gone = self.points.part(r)?;
                self.points.subtract_rect(r)?;
                Ok(gone)
            }
            Coding::Lossy => {
                self.points.union_rect(r)?;
                self.since = now;
                Ok(R::new(self.alloc))
            }
        }
    }

    /// The same points once more, lossy since the same moment.
    pub fn copy(&self) -> Result<Lossy<R>, NoMemory>
        ensures { IfOk result (λ copy. IsSame R.has self.now copy) }
    {
        let points = self.points.copy()?;
        Ok(Lossy {
            alloc: self.alloc,
            points,
            since: self.since,
        })
    }

    /// Whether the lossy points may be drawn again now. A window is busy where a job is in hand, or a
    /// draw is not wholly written.
    pub fn due(&self, now: u64, busy: bool) -> Due
        ensures { IsDue R.has self.now now busy result }
    {
        if busy || is_empty(&self.points) {
            return Due::Clean;
        }
        let earliest = self.since + QUIET;
        if now < earliest {
            return Due::Early(earliest);
        }
        Due::Now
    }

    /// The points to be drawn again.
    pub fn wanted(&self) -> &R
        ensures value { result.now ≡ self.now.points }
        ensures kept { self.now.since ≤ last_moment }
    {
        &self.points
    }

    /// No point is lossy any more. It takes no memory.
    pub fn clear(&mut self)
        ensures { Clears R.has self.old self.new }
    {
        self.points.clear();
    }

    /// Of the lossy points only these are left, as where the window became smaller. It takes no memory.
    pub fn keep(&mut self, points: R)
        requires { AreAmong (R.has points) (R.has self.old.points) }
        ensures { self.new ≡ keeping points self.old }
    {
        self.points = points;
    }
}

/// Whether there are no points.
fn is_empty<R: Points>(points: &R) -> bool
    ensures { IsTrue result ↔ HasNone (R.has points.now) }
{
    points.bounds().is_none()
}
