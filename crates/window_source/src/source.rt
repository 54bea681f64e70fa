// One client's view of one window.
ghost use Rattle.std.specs.Prelude.{◌≡◌, ◌+◌, ◌≤◌, ◌<◌, ◌^◌, true, IfOk, MatchOption, length};
ghost use Rattle.xp_base.specs.Clocks.{last_moment};
ghost use Rattle.xp_base.specs.Points.{whole};
ghost use Rattle.window_model.specs.Desktop.{IsSide};
ghost use Rattle.window_source.specs.Source.{begun, job_pixels};
ghost use Rattle.window_source.specs.Calls.{HasNoJob, HasJob};

use ack_tracker::Acks;
use damage_batch::{Batch, a_start_is_whole};
use draw_sequencer::Sequencer;
use lossy_refresh::{Lossy, a_start_is_exact};
use rect_regions::Points;
use std::alloc::Global;
use std::marker::Model;
use xp_base::{Capture, Conn, JobId, NoMemory, Rect, Wid};

/// What a server keeps of one window of one client.
#[derive(Drop)]
pub struct WindowSource<R: Points> {
    pub(crate) alloc: Global,
    pub(crate) conn: Conn,
    pub(crate) wid: Wid,
    pub(crate) w: u32,
    pub(crate) h: u32,
    pub(crate) mapped: bool,
    pub(crate) jobs: Sequencer<R>,
    pub(crate) batch: Batch<R>,
    pub(crate) lossy: Lossy<R>,
    pub(crate) acks: Acks,
    pub(crate) next_sequence: u64,
}

impl<R: Points> Model for WindowSource<R> {
    ghost use Rattle.window_source.specs.Source.{SourceSeen, seen};
    ghost use Rattle.window_source.specs.Kept.{IsSource};

    ghost Value = { SourceSeen };

    ghost view = { λ s.
        seen R.has s.conn.0 s.wid s.w s.h s.mapped s.jobs.jobs s.batch s.lossy s.acks.draws s.next_sequence };

    ghost invariant = { λ s.
        IsSource R.has s.w s.h s.jobs.jobs s.batch.pending s.lossy.points s.acks.draws s.next_sequence };
}

impl<R: Points> WindowSource<R> {
    /// A source as it begins: not mapped, the whole window pending. The moment is one of a clock that stops at
    /// 2^62 milliseconds, here and in every other call.
    pub fn new(
        alloc: Global,
        conn: Conn,
        wid: Wid,
        w: u32,
        h: u32,
        now: u64,
    ) -> Result<WindowSource<R>, NoMemory>
        requires wide { IsSide w }
        requires high { IsSide h }
        requires by_clock { now ≤ last_moment }
        ensures { IfOk result (λ s. s ≡ begun conn.0 wid w h now) }
    {
        a_start_is_whole::<R>();
        a_start_is_exact::<R>();
        let mut batch = Batch::new(alloc, now);
        let pending = batch.with(Rect { x: 0, y: 0, w, h })?;
        batch.set(pending, now);
        Ok(WindowSource {
            alloc,
            conn,
            wid,
            w,
            h,
            mapped: false,
            jobs: Sequencer::new(alloc),
            batch,
            lossy: Lossy::new(alloc),
            acks: Acks::new(alloc),
            next_sequence: 1,
        })
    }

    /// The client shows the window.
    pub fn map(&mut self)
        ensures { self.new ≡ record self.old { mapped = true } }
    {
        self.mapped = true;
    }

    /// The number of its window.
    pub fn wid(&self) -> Wid
        ensures { result ≡ self.now.wid }
    {
        self.wid
    }

    /// Whether the client shows the window.
    pub fn mapped(&self) -> bool
        ensures { result ≡ self.now.mapped }
    {
        self.mapped
    }

    /// The pixels of its jobs in hand.
    pub fn pixels(&self) -> u64
        ensures { result ≡ job_pixels self.now.jobs }
    {
        self.jobs.pixels()
    }

    /// What the job in hand with this number captured. `None` exactly where no job in hand has it.
    pub fn in_hand(&self, id: JobId) -> Option<&Capture>
        ensures { MatchOption result (HasNoJob self.now id.0) (λ c. HasJob self.now id.0 c.now) }
    {
        match self.jobs.find(id) {
            None => None,
            Some(job) => Some(&job.capture),
        }
    }

    /// How many jobs are in hand and how many draws unacknowledged, together.
    pub fn load(&self) -> u32
        ensures count { result ≡ length self.now.jobs + length self.now.unacknowledged }
        ensures few { result < 2 ^ 31 }
    {
        self.jobs.len() + self.acks.load()
    }

    // The rectangle of all of the window.
    pub(crate) fn whole(&self) -> Rect
        ensures { result ≡ whole self.now.wide self.now.high }
    {
        Rect {
            x: 0,
            y: 0,
            w: self.w,
            h: self.h,
        }
    }
}
