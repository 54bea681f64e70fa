// The jobs in hand of one window.
ghost use Rattle.std.specs.Prelude.{◌≡◌, ◌+◌, ◌<◌, ◌≤◌, ◌^◌, [], length, OnOk, OnErr, IsOk, MatchOption, ◌==◌};
ghost use Rattle.std.specs.Arc.{arc_value};
ghost use Rattle.draw_sequencer.specs.InHand.{with_job, IsFree, StandsAt, HasNumber, relieve, all_pixels, count_leaving};
ghost use Rattle.draw_sequencer.specs.Filing.{FileGives, PopGives};
ghost use Rattle.draw_sequencer.specs.Kept.{AreDistinct, IsPlaceOf};

use crate::captures::same_capture;
use crate::in_hand::InHand;
use crate::kept::Kept;
use crate::ready::Ready;
use rect_regions::Points;
use rgb_encoders::Encoded;
use std::alloc::Global;
use std::collections::VecDeque;
use std::marker::Model;
use std::sync::Arc;
use xp_base::{Capture, JobId, NoMemory};

/// Jobs in hand, in the order in which they were added. However their encodings come back, they leave
/// in this order.
#[derive(Drop)]
pub struct Sequencer<R: Points> {
    jobs: VecDeque<InHand<R>>,
    /// How many pixels the captures of all jobs have.
    pixels: u64,
}

impl<R: Points> Model for Sequencer<R> {
    ghost use Rattle.std.specs.Prelude.{◌-◌};
    ghost use Rattle.std.specs.VecDeque.{deque_len, deque_capacity};
    ghost use Rattle.draw_sequencer.specs.InHand.{Jobs};
    ghost use Rattle.draw_sequencer.specs.Kept.{IsSequencer};

    ghost Value = { Jobs R };

    ghost view = { λ s. record { jobs = s.jobs.items; room = deque_capacity s.jobs - deque_len s.jobs } };

    ghost invariant = { λ s. IsSequencer s.jobs.items s.pixels };
}

impl<R: Points> Sequencer<R> {
    pub fn new(alloc: Global) -> Sequencer<R>
        ensures { result.jobs ≡ [] }
    {
        Sequencer {
            jobs: VecDeque::new(alloc),
            pixels: 0,
        }
    }

    /// After it so many jobs can be added without memory.
    pub fn reserve(&mut self, n: u32) -> Result<(), NoMemory>
        ensures same { self.new.jobs ≡ self.old.jobs }
        ensures ok { OnOk result (n ≤ self.new.room) }
        ensures room { self.old.room ≤ self.new.room }
    {
        self.jobs.reserve(n as usize)?;
        Ok(())
    }

    /// Takes a job in hand behind all others, with a number that no job in hand has.
    pub fn add(&mut self, id: JobId, capture: Arc<Capture>, relief: R) -> Result<(), NoMemory>
        requires unused { IsFree self.old.jobs id.0 }
        requires few { length self.old.jobs < 2 ^ 31 }
        ensures ok { OnOk result (self.new.jobs ≡ with_job self.old.jobs id.0 (arc_value capture) relief) }
        ensures same { OnErr result (self.new.jobs ≡ self.old.jobs) }
        ensures reserved { 0 < self.old.room → IsOk result }
        ensures room { self.old.room ≤ self.new.room + 1 }
    {
        let pixels = capture.rect.area() as u64;
        self.jobs.push_back(InHand {
            id,
            capture,
            relief,
            encoded: None,
        })?;
        self.pixels += pixels;
        Ok(())
    }

    /// The k-th job in hand, from 0. `None` exactly where there are not so many.
    pub fn nth(&self, k: u32) -> Option<&InHand<R>>
        ensures { MatchOption result (length self.now.jobs ≤ k) (λ j. StandsAt self.now.jobs k j.now) }
    {
        self.jobs.get(k as usize)
    }

    /// The job in hand with this number. `None` exactly where there is none.
    pub fn find(&self, id: JobId) -> Option<&InHand<R>>
        ensures { MatchOption result (IsFree self.now.jobs id.0) (λ j. HasNumber self.now.jobs id.0 j.now) }
    {
        let place = self.place(id)?;
        Some(&self.jobs[place])
    }

    /// How many jobs `pop_ready` would give in a row if the job with this number had its encoding.
    pub fn leaving(&self, id: JobId) -> u32
        ensures { result ≡ count_leaving self.now.jobs id.0 }
    {
        for i in 0..self.jobs.len() {
            let job = &self.jobs[i];
            if !job.is_ready(id) {
                return i as u32;
            }
        }
        self.jobs.len() as u32
    }

    /// The pixels of the captures of all jobs.
    pub fn pixels(&self) -> u64
        ensures { result ≡ all_pixels self.now.jobs }
    {
        self.pixels
    }

    /// The encoding of the job with this number came back.
    pub fn file(&mut self, id: JobId, e: Encoded) -> Kept
        ensures answer { FileGives self.old.jobs self.new.jobs id.0 e result }
        ensures room { self.new.room ≡ self.old.room }
    {
        let Some(place) = self.place(id) else {
            return Kept::Late;
        };
        let job = &mut self.jobs[place];
        if !same_capture(&e.capture, &job.capture) {
            return Kept::Foreign(e);
        }
        job.encoded = Some(e);
        Kept::Kept
    }

    /// The first job leaves, where its encoding came back. `None` exactly where it did not, or there is none.
    pub fn pop_ready(&mut self) -> Option<Ready<R>>
        ensures answer { PopGives self.old.jobs self.new.jobs result }
        ensures room { self.old.room ≤ self.new.room }
    {
        let first = self.jobs.front()?;
        if first.encoded.is_none() {
            return None;
        }
        let InHand {
            id,
            capture,
            relief,
            encoded,
        } = self.jobs.pop_front()?;
        self.pixels -= capture.rect.area() as u64;
        let encoded = encoded?;
        Some(Ready {
            id,
            encoded,
            relief,
        })
    }

    /// How many jobs are in hand.
    pub fn len(&self) -> u32
        ensures count { result ≡ length self.now.jobs }
        ensures few { result ≤ 2 ^ 31 }
        ensures distinct { AreDistinct self.now.jobs }
    {
        self.jobs.len() as u32
    }

    pub fn is_empty(&self) -> bool
        ensures { result ≡ (length self.now.jobs == 0) }
    {
        self.jobs.is_empty()
    }

    /// Whether a job in hand relieves this point of the window.
    pub fn owes(&self, x: u32, y: u32) -> bool
        ensures { result ≡ relieve R.has self.now.jobs x y }
    {
        self.jobs.iter().any(|job| job.relief.has(x, y))
    }

    /// Cancels all jobs.
    pub fn clear(&mut self)
        ensures jobs { self.new.jobs ≡ [] }
        ensures room { self.old.room ≤ self.new.room }
    {
        self.jobs.clear();
        self.pixels = 0;
    }

    // Where the job with this number stands.
    fn place(&self, id: JobId) -> Option<usize>
        ensures { MatchOption result (IsFree self.now.jobs id.0) (IsPlaceOf self.now.jobs id.0) }
    {
        for i in 0..self.jobs.len() {
            let job = &self.jobs[i];
            if job.has_number(id) {
                return Some(i);
            }
        }
        None
    }
}
