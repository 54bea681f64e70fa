// Jobs in hand, given back and carried over.
ghost use Rattle.std.specs.Prelude.{◌≡◌, ◌≤◌, [], OnOk, OnErr, IfOk};
ghost use Rattle.xp_base.specs.Clocks.{last_moment};
ghost use Rattle.xp_base.specs.Points.{is_within};
ghost use Rattle.window_model.specs.Desktop.{IsSide};
ghost use Rattle.rect_regions.specs.PointSets.{SamePoints, united, without};
ghost use Rattle.draw_sequencer.specs.InHand.{relieve};
ghost use Rattle.damage_batch.specs.Pending.{Puts};
ghost use Rattle.lossy_refresh.specs.LossyPoints.{AreAmong, keeping};
ghost use Rattle.resize_cancel.specs.Cancelled.{GivesBack, IsCarried};

use crate::carrying::Carried;
use damage_batch::Batch;
use draw_sequencer::Sequencer;
use lossy_refresh::Lossy;
use rect_regions::Points;
use std::alloc::Global;
use xp_base::{NoMemory, Rect};

/// All jobs in hand are cancelled, and what they relieve is pending. The moment is one of a clock that
/// stops at 2^62 milliseconds, here and in `put_carried`.
pub fn give_back<R: Points>(
    s: &mut Sequencer<R>,
    b: &mut Batch<R>,
    now: u64,
) -> Result<(), NoMemory>
    requires by_clock { now ≤ last_moment }
    ensures jobs { OnOk result (s.new.jobs ≡ []) }
    ensures pending { OnOk result (GivesBack R.has s.old.jobs b.old now b.new) }
    ensures same { OnErr result (s.new ≡ s.old) }
    ensures err { OnErr result (b.new ≡ b.old) }
{
    let mut pending = b.pending().copy()?;
    add_reliefs(s, &mut pending)?;
    s.clear();
    b.set(pending, now);
    Ok(())
}

/// What of a window of the size `w0` by `h0` is pending and lossy once it has the size `w` by `h`: new
/// points are pending, and those that were or that a job in hand relieves; of the lossy points those are
/// left that lie in the new size.
pub fn carried<R: Points>(
    alloc: Global,
    s: &Sequencer<R>,
    b: &Batch<R>,
    l: &Lossy<R>,
    w0: u32,
    h0: u32,
    w: u32,
    h: u32,
) -> Result<Carried<R>, NoMemory>
    requires old_wide { IsSide w0 }
    requires old_high { IsSide h0 }
    requires wide { IsSide w }
    requires high { IsSide h }
    ensures { IfOk result (IsCarried R.has w0 h0 w h s.now.jobs b.now.pending l.now.points) }
{
    let mut pending: R = between(alloc, w0, h0, w, h)?;
    pending.union(b.pending())?;
    add_reliefs(s, &mut pending)?;
    let size = Rect { x: 0, y: 0, w, h };
    pending.clip(size)?;
    let lossy = l.wanted().part(size)?;
    Ok(Carried { pending, lossy })
}

/// Cancels all jobs in hand and puts in what `carried` made of these three as they stand. It takes no
/// memory.
pub fn put_carried<R: Points>(
    s: &mut Sequencer<R>,
    b: &mut Batch<R>,
    l: &mut Lossy<R>,
    c: Carried<R>,
    now: u64,
)
    requires by_clock { now ≤ last_moment }
    requires among { AreAmong (R.has c.lossy) (R.has l.old.points) }
    ensures jobs { s.new.jobs ≡ [] }
    ensures pending { Puts R.has b.old c.pending now b.new }
    ensures lossy { l.new ≡ keeping c.lossy l.old }
{
    let Carried { pending, lossy } = c;
    s.clear();
    b.set(pending, now);
    l.keep(lossy);
}

// The points of the one size that are not in the other.
fn between<R: Points>(alloc: Global, w0: u32, h0: u32, w: u32, h: u32) -> Result<R, NoMemory>
    requires old_wide { IsSide w0 }
    requires old_high { IsSide h0 }
    requires wide { IsSide w }
    requires high { IsSide h }
    ensures { IfOk result (λ points. SamePoints (R.has points) (without (is_within w h) (is_within w0 h0))) }
{
    let mut points = R::new(alloc);
    points.union_rect(Rect { x: 0, y: 0, w, h })?;
    points.subtract_rect(Rect {
        x: 0,
        y: 0,
        w: w0,
        h: h0,
    })?;
    Ok(points)
}

// Adds what the jobs in hand relieve.
fn add_reliefs<R: Points>(s: &Sequencer<R>, points: &mut R) -> Result<(), NoMemory>
    ensures { OnOk result (SamePoints (R.has points.new) (united (R.has points.old) (relieve R.has s.now.jobs))) }
{
    for k in 0..s.len() {
        let Some(job) = s.nth(k) else { unreachable!() };
        points.union(&job.relief)?;
    }
    Ok(())
}
