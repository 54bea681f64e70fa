// One window of one client, played plainly.
ghost use Rattle.std.specs.Prelude.{ℕ, ◌≡◌, ◌≤◌, ◌^◌, true, IfOk, OnOk, OnErr, count_by};
ghost use Rattle.xp_base.specs.Points.{whole};
ghost use Rattle.delivery_model.specs.Events.{put_pending, damaged, painted, given_back, unmapped, started, step, Close};
ghost use Rattle.delivery_model.specs.Owed.{owed_count};

use crate::parts::{PlainJob, PlainPacket, PlainSent};
use crate::selections::{IsOwed, WithJobs};
use point_grids::{Everywhere, Painted, PixelGrid, PointSet, WithRect, each_point};
use std::alloc::Global;
use std::marker::Model;
use xp_base::{NoMemory, Rect};

/// A window of one client, where each set of points is a list of marks and each step goes through all
/// of them. After want of memory it is as before. Moments are milliseconds of a clock that stops at
/// 2^62.
#[derive(Debug, Drop)]
pub struct PlainWindow {
    pub(crate) desk: PixelGrid,
    pub(crate) client: Option<PixelGrid>,
    pub(crate) packets: Vec<PlainPacket>,
    pub(crate) jobs: Vec<PlainJob>,
    pub(crate) pending: PointSet,
    pub(crate) pending_since: u64,
    pub(crate) lossy: PointSet,
    pub(crate) lossy_since: u64,
    pub(crate) unacknowledged: Vec<PlainSent>,
    pub(crate) next_sequence: u64,
    pub(crate) mapped: bool,
    pub(crate) delay: u64,
}

impl Model for PlainWindow {
    ghost use Rattle.std.specs.Prelude.{◌≤◌, ◌^◌, map};
    ghost use Rattle.delivery_model.specs.Window.{Window};
    ghost use Rattle.plain_window.specs.Plain.{packet_seen};

    ghost Value = { Window };

    ghost view = { λ w. record {
      desk = w.desk;
      client = w.client;
      packets = map packet_seen w.packets.items;
      jobs = w.jobs.items;
      pending = w.pending;
      pending_since = w.pending_since;
      lossy = w.lossy;
      lossy_since = w.lossy_since;
      unacknowledged = w.unacknowledged.items;
      next_sequence = w.next_sequence;
      mapped = w.mapped;
      delay = w.delay;
    } };

    ghost invariant = { λ w. ((w.pending_since ≤ 2 ^ 62) × (w.lossy_since ≤ 2 ^ 62)) × (w.delay ≤ 500) };
}

impl PlainWindow {
    /// Attach and open: the window is announced, and all of it is pending.
    pub fn start(alloc: Global, desk: PixelGrid, now: u64) -> Result<PlainWindow, NoMemory>
        requires clock { now ≤ 2 ^ 62 }
        ensures { IfOk result (λ w. w ≡ started desk now) }
    {
        let wide = desk.wide();
        let high = desk.high();
        let pending = PointSet::of(alloc, wide, high, &Everywhere { mark: true })?;
        let lossy = PointSet::of(alloc, wide, high, &Everywhere { mark: false })?;
        let mut packets = Vec::new(alloc);
        packets.push(PlainPacket::NewWindow {
            size: whole_rect(&desk),
        })?;
        Ok(PlainWindow {
            desk,
            client: None,
            packets,
            jobs: Vec::new(alloc),
            pending,
            pending_since: now,
            lossy,
            lossy_since: 0,
            unacknowledged: Vec::new(alloc),
            next_sequence: 1,
            mapped: false,
            delay: 20,
        })
    }

    pub(crate) fn put_pending(&mut self, set: PointSet, now: u64)
        requires clock { now ≤ 2 ^ 62 }
        ensures { self.new ≡ put_pending set now self.old }
    {
        if self.pending.is_empty() && !set.is_empty() {
            self.pending_since = now;
        }
        self.pending = set;
    }

    /// The rectangle's part of the window becomes pending.
    pub(crate) fn damage(&mut self, alloc: Global, rect: Rect, now: u64) -> Result<(), NoMemory>
        requires clock { now ≤ 2 ^ 62 }
        ensures ok { OnOk result (self.new ≡ damaged rect now self.old) }
        ensures err { OnErr result (self.new ≡ self.old) }
    {
        let test = WithRect {
            set: &self.pending,
            rect,
        };
        let pending = PointSet::of(alloc, self.desk.wide(), self.desk.high(), &test)?;
        self.put_pending(pending, now);
        Ok(())
    }

    /// Fill, copy and noise: the rectangle is damaged, and there the window has the new numbers, which
    /// are given for the whole window.
    pub fn paint(
        &mut self,
        alloc: Global,
        rect: Rect,
        numbers: &[u32],
        now: u64,
    ) -> Result<(), NoMemory>
        requires clock { now ≤ 2 ^ 62 }
        ensures ok { OnOk result (self.new ≡ damaged rect now (record self.old { desk = painted rect numbers.now self.old.desk })) }
        ensures err { OnErr result (self.new ≡ self.old) }
    {
        let new = Painted {
            desk: &self.desk,
            rect,
            numbers,
        };
        let desk = PixelGrid::of(alloc, self.desk.wide(), self.desk.high(), &new)?;
        self.damage(alloc, rect, now)?;
        self.desk = desk;
        Ok(())
    }

    /// `buffer-refresh`: the whole window is damaged.
    pub fn refresh(&mut self, alloc: Global, now: u64) -> Result<(), NoMemory>
        requires clock { now ≤ 2 ^ 62 }
        ensures ok { OnOk result (self.new ≡ damaged (whole self.old.desk.wide self.old.desk.high) now self.old) }
        ensures err { OnErr result (self.new ≡ self.old) }
    {
        let rect = whole_rect(&self.desk);
        self.damage(alloc, rect, now)
    }

    pub fn map(&mut self)
        ensures { self.new ≡ record self.old { mapped = true } }
    {
        self.mapped = true;
    }

    /// All jobs in hand are cancelled, and what they relieve is pending.
    pub fn recall(&mut self, alloc: Global, now: u64) -> Result<(), NoMemory>
        requires clock { now ≤ 2 ^ 62 }
        ensures ok { OnOk result (self.new ≡ given_back now self.old) }
        ensures err { OnErr result (self.new ≡ self.old) }
    {
        let test = WithJobs {
            set: &self.pending,
            jobs: self.jobs.as_slice(),
        };
        let pending = PointSet::of(alloc, self.desk.wide(), self.desk.high(), &test)?;
        self.jobs.clear();
        self.put_pending(pending, now);
        Ok(())
    }

    /// Cancels and gives back; an unmapped window stays as it is.
    pub fn unmap(&mut self, alloc: Global, now: u64) -> Result<(), NoMemory>
        requires clock { now ≤ 2 ^ 62 }
        ensures ok { OnOk result (self.new ≡ unmapped now self.old) }
        ensures err { OnErr result (self.new ≡ self.old) }
        ensures last { OnErr result (self.old.mapped ≡ true) }
    {
        if !self.mapped {
            return Ok(());
        }
        self.recall(alloc, now)?;
        self.mapped = false;
        Ok(())
    }

    /// The window is closed: it is gone, with its jobs and all that was owed.
    pub fn close(window: &mut Option<PlainWindow>)
        ensures { (lossy_shows : ℕ → ℕ) → window.new ≡ step lossy_shows window.old Close }
    {
        *window = None;
    }

    /// How many points of the window the client is owed.
    pub fn owed_count(&self, alloc: Global) -> Result<usize, NoMemory>
        ensures { IfOk result (λ n. n ≡ owed_count self.now) }
    {
        let test = IsOwed {
            pending: &self.pending,
            jobs: self.jobs.as_slice(),
            packets: self.packets.as_slice(),
            lossy: &self.lossy,
        };
        let owed = each_point(alloc, self.desk.wide(), self.desk.high(), &test)?;
        Ok(count_marks(owed.as_slice()))
    }
}

pub(crate) fn whole_rect(desk: &PixelGrid) -> Rect
    ensures { result ≡ whole desk.now.wide desk.now.high }
{
    Rect {
        x: 0,
        y: 0,
        w: desk.wide(),
        h: desk.high(),
    }
}

fn count_marks(marks: &[bool]) -> usize
    ensures { result ≡ count_by (λ b. b) marks.now }
{
    marks.iter().filter(|mark| **mark).count()
}
