// Captures of a source's window.
ghost use Rattle.std.specs.Prelude.{◌≡◌, ◌+◌, ◌-◌, ◌<◌, ◌^◌, ◌↔◌, ◌||◌, nat_lt, length, IsTrue};
ghost use Rattle.client_outbox.specs.Reliefs.{is_busy};
ghost use Rattle.window_source.specs.declared.capturing.Mode.TheVariants as M;
ghost use Rattle.window_source.specs.Capturing.{AnswersAs, CaptureGives, IsWindowOf, AllAbove, MayCapture, RefusalGives, IsDueIn};

use crate::source::WindowSource;
use capture_jobs::NewJobs;
use client_outbox::Outbox;
use delivery_model::{empty_sets_have_no_point, points_are_their_tests};
use rect_regions::Points;
use window_model::Win;
use xp_base::{Due, JobId};

/// From this load on a window is not captured: jobs in hand and unacknowledged draws.
const LOAD_LIMIT: u32 = 64;

/// From this weight on a client's windows are not captured: pixels in hand and bytes that wait.
const WEIGHT_LIMIT: u64 = 33_554_432;

/// The first job number that is not given.
const JOB_LIMIT: u64 = 4_611_686_018_427_387_904;

/// From this load on there may be no room for the jobs of one capture more.
const MOST_LOAD: u32 = 2_147_483_616;

/// Whether a capture is one of many, or one of the last of a run: those wait for no delay, and neither load nor
/// weight refuses them.
#[derive(Clone, Copy, Debug, PartialEq, Eq)]
pub enum Mode {
    Live,
    Last,
}

/// What a capture came to.
#[derive(Drop)]
pub enum Caught {
    /// These jobs are in hand now, and wait for an encoder.
    Jobs(NewJobs),
    /// The client does not show the window.
    Unmapped,
    /// Nothing is to be captured.
    Clean,
    /// Not before this moment, in milliseconds.
    Early(u64),
    /// The load is this, 64 or more.
    Congested(u32),
    /// The weight is this, 33,554,432 or more.
    Heavy(u64),
    /// Job numbers are used up: the next one is 2^62 or more.
    Spent,
    NoMemory,
}

impl<R: Points> WindowSource<R> {
    /// Captures what is pending of the window, or, where nothing is, what is lossy: its jobs are numbered from `first`
    /// on. `lossy` says whether the client takes lossy draws, `weight` is that of the client. The first refusal in the
    /// order of `Caught` that stands is answered.
    pub fn capture(
        &mut self,
        win: &Win,
        lossy: bool,
        now: u64,
        mode: Mode,
        weight: u64,
        first: JobId,
        out: &Outbox<R>,
    ) -> Caught
        requires window { IsWindowOf win.now self.old }
        requires above { AllAbove first.0 self.old.jobs }
        requires few { length self.old.jobs + length self.old.unacknowledged < 2 ^ 31 - 32 }
        ensures answer { let busy = is_busy self.old.wid out.now.waiting.packets in
            AnswersAs mode now weight first.0 busy self.old result }
        ensures source { let busy = is_busy self.old.wid out.now.waiting.packets in
            CaptureGives lossy first.0 busy win.now.pixels self.old result self.new }
    {
        let busy = out.busy(self.wid);
        if let Some(refusal) = self.refusal(mode, now, weight, first, busy) {
            return refusal;
        }
        match self.take(win, lossy, first) {
            Ok(jobs) => Caught::Jobs(jobs),
            Err(_) => Caught::NoMemory,
        }
    }

    /// Whether `capture` may be called with this window and this number: the window is the source's, each job in hand
    /// has a smaller number, and there is room for the load of one capture more.
    pub fn may_capture(&self, win: &Win, first: JobId) -> bool
        ensures { IsTrue result ↔ MayCapture win.now first.0 self.now }
    {
        if win.wid != self.wid || win.w != self.w || win.h != self.h {
            return false;
        }
        self.all_below(first) && self.load() < MOST_LOAD
    }

    // Whether each job in hand has a number below this one.
    fn all_below(&self, first: JobId) -> bool
        ensures { IsTrue result ↔ AllAbove first.0 self.now.jobs }
    {
        for k in 0..self.jobs.len() {
            let Some(job) = self.jobs.nth(k) else {
                unreachable!()
            };
            if job.id.0 >= first.0 {
                return false;
            }
        }
        true
    }

    // Why the window may not be captured; `None` where it may.
    fn refusal(&self, mode: Mode, now: u64, weight: u64, first: JobId, busy: bool) -> Option<Caught>
        ensures { RefusalGives mode now weight first.0 busy self.now result }
    {
        match mode {
            Mode::Live => self.live_refusal(now, weight, first, busy),
            Mode::Last => self.last_refusal(now, weight, first, busy),
        }
    }

    // Among many.
    fn live_refusal(&self, now: u64, weight: u64, first: JobId, busy: bool) -> Option<Caught>
        ensures { RefusalGives M.Live now weight first.0 busy self.now result }
    {
        if !self.mapped {
            return Some(Caught::Unmapped);
        }
        match self.due(now, busy) {
            Due::Clean => return Some(Caught::Clean),
            Due::Early(moment) => return Some(Caught::Early(moment)),
            Due::Now => {}
        }
        let load = self.load();
        if load >= LOAD_LIMIT {
            return Some(Caught::Congested(load));
        }
        if weight >= WEIGHT_LIMIT {
            return Some(Caught::Heavy(weight));
        }
        if first.0 >= JOB_LIMIT {
            return Some(Caught::Spent);
        }
        None
    }

    // At the end of a run.
    fn last_refusal(&self, now: u64, weight: u64, first: JobId, busy: bool) -> Option<Caught>
        ensures { RefusalGives M.Last now weight first.0 busy self.now result }
    {
        let _ = weight;
        if !self.mapped {
            return Some(Caught::Unmapped);
        }
        if self.due(now, busy) == Due::Clean {
            return Some(Caught::Clean);
        }
        if first.0 >= JOB_LIMIT {
            return Some(Caught::Spent);
        }
        None
    }

    // Whether something is to be captured now, where a draw of the window waits or none does.
    fn due(&self, now: u64, busy: bool) -> Due
        ensures { IsDueIn now busy self.now result }
    {
        points_are_their_tests();
        empty_sets_have_no_point();
        damage_batch::due_is_told::<R>();
        lossy_refresh::due_is_told::<R>();
        match self.batch.due(now) {
            Due::Clean => self.lossy.due(now, self.is_busy(busy)),
            Due::Early(moment) => Due::Early(moment),
            Due::Now => Due::Now,
        }
    }

    // Whether a job is in hand, or a draw of the window waits.
    fn is_busy(&self, waits: bool) -> bool
        ensures { result ≡ (nat_lt 0 (length self.now.jobs) || waits) }
    {
        !self.jobs.is_empty() || waits
    }
}
