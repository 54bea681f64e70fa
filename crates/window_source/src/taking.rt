// The jobs of one capture.
ghost use Rattle.std.specs.Prelude.{◌≡◌, ◌+◌, ◌-◌, ◌≤◌, ◌<◌, ◌^◌, ◌++◌, length, IfOk, OnErr};
ghost use Rattle.xp_base.specs.Points.{LiesIn};
ghost use Rattle.delivery_model.specs.Events.{is_empty};
ghost use Rattle.window_source.specs.Capturing.{Takes, IsWindowOf, AllAbove};
ghost use Rattle.window_source.specs.Taking.{IsTaken, AllLieIn, IsMade, AreMade, new_jobs, AreNew};

use crate::source::WindowSource;
use capture_jobs::{Job, NewJobs, Planned, capture, plan, plans_are_short, plans_are_the_models};
use damage_batch::a_capture_takes_all;
use delivery_model::{empty_sets_have_no_point, points_are_their_tests};
use draw_sequencer::{InHand, Sequencer};
use rect_regions::Points;
use std::alloc::Global;
use std::collections::VecDeque;
use std::sync::Arc;
use window_model::Win;
use xp_base::{Conn, JobId, NoMemory, Wid};

impl<R: Points> WindowSource<R> {
    // Takes what is pending, or, where nothing is, what is lossy. All memory is found before the first change.
    pub(crate) fn take(&mut self, win: &Win, lossy: bool, first: JobId) -> Result<NewJobs, NoMemory>
        requires window { IsWindowOf win.now self.old }
        requires above { AllAbove first.0 self.old.jobs }
        requires small { first.0 < 2 ^ 62 }
        requires few { length self.old.jobs + length self.old.unacknowledged < 2 ^ 31 - 32 }
        ensures ok { IfOk result (λ jobs. Takes lossy first.0 win.now.pixels self.old jobs self.new) }
        ensures same { OnErr result (self.new ≡ self.old) }
    {
        points_are_their_tests();
        plans_are_the_models();
        plans_are_short();
        a_capture_takes_all::<R>();
        let load = self.load();
        let region = self.region();
        let plan = plan(self.alloc, region, self.refreshes(), lossy)?;
        let made = made_jobs(self.alloc, win, region, first, plan.as_slice())?;
        let jobs = jobs_for(self.alloc, self.conn, self.wid, made.as_slice())?;
        self.jobs.reserve(made.len() as u32)?;
        add_all(&mut self.jobs, made);
        // What was taken is in the jobs' reliefs.
        let _taken = self.batch.take();
        self.batch.on_capture(load);
        Ok(jobs)
    }

    // Whether a capture is a refresh: nothing is pending.
    fn refreshes(&self) -> bool
        ensures { result ≡ is_empty self.now.pending }
    {
        empty_sets_have_no_point();
        self.batch.pending().bounds().is_none()
    }

    // The points that a capture takes.
    fn region(&self) -> &R
        ensures { IsTaken R.has self.now result.now }
    {
        points_are_their_tests();
        if self.refreshes() {
            return self.lossy.wanted();
        }
        self.batch.pending()
    }
}

/// The jobs of a plan, numbered from the first on.
fn made_jobs<R: Points>(
    alloc: Global,
    win: &Win,
    region: &R,
    first: JobId,
    plan: &[Planned],
) -> Result<Vec<InHand<R>>, NoMemory>
    requires lie { AllLieIn win.now.w win.now.h plan.now }
    requires small { first.0 + length plan.now < 2 ^ 63 }
    ensures { IfOk result (λ made. AreMade R.has win.now region.now first.0 plan.now made.items) }
{
    let mut made = Vec::with_capacity(alloc, plan.len())?;
    for k in 0..plan.len() {
        made.push(made_job(alloc, win, region, JobId(first.0 + k as u64), plan[k])?)?;
    }
    Ok(made)
}

/// The job of one rectangle.
fn made_job<R: Points>(
    alloc: Global,
    win: &Win,
    region: &R,
    id: JobId,
    planned: Planned,
) -> Result<InHand<R>, NoMemory>
    requires { LiesIn win.now.w win.now.h planned.rect }
    ensures { IfOk result (IsMade R.has win.now region.now id.0 planned) }
{
    let pixels = capture(alloc, win, planned.rect, planned.coding)?;
    let relief = region.part(planned.rect)?;
    Ok(InHand {
        id,
        capture: Arc::new(alloc, pixels)?,
        relief,
        encoded: None,
    })
}

/// The same jobs for an encoder, in order.
fn jobs_for<R: Points>(
    alloc: Global,
    conn: Conn,
    wid: Wid,
    made: &[InHand<R>],
) -> Result<NewJobs, NoMemory>
    ensures { IfOk result (λ jobs. jobs ≡ new_jobs conn.0 wid made.now) }
{
    let mut jobs = Vec::with_capacity(alloc, made.len())?;
    for k in 0..made.len() {
        let job = &made[k];
        let capture = Arc::try_clone(&job.capture)?;
        jobs.push(Job::new(job.id, conn, wid, capture))?;
    }
    Ok(NewJobs::new(jobs))
}

/// Takes these jobs in hand. There is room for them.
fn add_all<R: Points>(jobs: &mut Sequencer<R>, made: Vec<InHand<R>>)
    requires new { AreNew jobs.old.jobs made.items }
    requires few { length jobs.old.jobs + length made.items < 2 ^ 31 }
    requires room { length made.items ≤ jobs.old.room }
    ensures { jobs.new.jobs ≡ jobs.old.jobs ++ made.items }
{
    let mut made = VecDeque::from_vec(made);
    while let Some(job) = made.pop_front() {
        let InHand {
            id,
            capture,
            relief,
            encoded: _,
        } = job;
        if jobs.add(id, capture, relief).is_err() {
            unreachable!();
        }
    }
}
