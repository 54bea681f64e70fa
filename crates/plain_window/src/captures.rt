// Captures of a window that is played plainly.
ghost use Rattle.std.specs.Prelude.{◌≡◌, ◌≤◌, ◌<◌, ◌*◌, ◌^◌, [], ◌∷◌, IfOk, OnOk, OnErr, map, min, length, nat_le, if◌then◌else◌};
ghost use Rattle.delivery_model.specs.Events.{job_of, jobs_of, captured, region_taken, load};
ghost use Rattle.delivery_model.specs.Refusals.{Allowed, is_busy, is_clean, earliest, capture_answer, is_allowed, captured_where};
ghost use Rattle.plain_window.specs.Plain.{packet_seen, plan_seen, answered};

use crate::parts::{PlainJob, PlainPacket, PlainPlanned};
use crate::window::PlainWindow;
use point_grids::{Cut, Everywhere, InRect, PixelGrid, PointSet, each_point};
use std::alloc::Global;
use xp_base::NoMemory;

/// What a capture answers. The first refusal that stands is given, in this order.
#[derive(Clone, Copy, Debug, PartialEq, Eq)]
pub enum PlainCapture {
    Unmapped,
    /// Nothing is pending, and what is lossy has to wait for a job or a draw.
    Clean,
    /// Before this moment, in milliseconds.
    Early(u64),
    /// So many jobs in hand and draws that are not acknowledged: 64 or more.
    Congested(u64),
    /// The weight of the client's connection: 33,554,432 or more.
    Heavy(u64),
    /// The next job's number is 2^62 or more.
    Spent,
    /// So many jobs were made.
    Jobs(u64),
}

/// A job that has the window's numbers of now, and relieves its rectangle's part of the region.
fn job_of(
    alloc: Global,
    desk: &PixelGrid,
    region: &PointSet,
    number: u64,
    planned: PlainPlanned,
) -> Result<PlainJob, NoMemory>
    ensures { IfOk result (λ j. j ≡ job_of desk.now region.now number (plan_seen planned)) }
{
    let rect = planned.rect;
    let _area = rect.area();
    let pixels = each_point(alloc, rect.w, rect.h, &Cut { desk, rect })?;
    let part = InRect { set: region, rect };
    let relief = PointSet::of(alloc, desk.wide(), desk.high(), &part)?;
    Ok(PlainJob {
        number,
        rect,
        coding: planned.coding,
        pixels,
        relief,
        encoded: false,
    })
}

fn jobs_of(
    alloc: Global,
    desk: &PixelGrid,
    region: &PointSet,
    first: u64,
    plan: &[PlainPlanned],
) -> Result<Vec<PlainJob>, NoMemory>
    requires few { first < 2 ^ 62 }
    ensures { IfOk result (λ v. v.items ≡ jobs_of desk.now region.now first (map plan_seen plan.now)) }
{
    let mut jobs = Vec::new(alloc);
    let mut next = first;
    for planned in plan {
        jobs.push(job_of(alloc, desk, region, next, *planned)?)?;
        next += 1;
    }
    Ok(jobs)
}

fn is_draw(packet: &PlainPacket) -> bool
    ensures { result ≡ is_busy (packet_seen packet.now ∷ []) }
{
    match packet {
        PlainPacket::NewWindow { .. } => false,
        PlainPacket::WindowResized { .. } => false,
        PlainPacket::Draws(_) => true,
    }
}

fn is_busy(packets: &[PlainPacket]) -> bool
    ensures { result ≡ is_busy (map packet_seen packets.now) }
{
    for packet in packets {
        if is_draw(packet) {
            return true;
        }
    }
    false
}

impl PlainWindow {
    fn region_taken(&self) -> &PointSet
        ensures { result.now ≡ region_taken self.now }
    {
        if self.pending.is_empty() {
            &self.lossy
        } else {
            &self.pending
        }
    }

    /// The jobs in hand, and the draws that are not acknowledged.
    fn load(&self) -> u64
        ensures { result ≡ load self.now }
    {
        self.jobs.len() as u64 + self.unacknowledged.len() as u64
    }

    fn is_clean(&self) -> bool
        ensures { result ≡ is_clean self.now }
    {
        self.pending.is_empty()
            && (self.lossy.is_empty()
                || (!self.jobs.is_empty() || is_busy(self.packets.as_slice())))
    }

    fn earliest(&self) -> u64
        ensures { result ≡ earliest self.now }
    {
        if self.pending.is_empty() {
            self.lossy_since + 250
        } else {
            self.pending_since + self.delay
        }
    }

    fn delay_captured(&self) -> u64
        ensures value { result ≡ (if nat_le 32 (load self.now) then min 500 (2 * self.now.delay) else self.now.delay) }
        ensures small { result ≤ 500 }
    {
        if self.load() < 32 {
            self.delay
        } else {
            std::cmp::min(500, 2 * self.delay)
        }
    }

    fn take(&mut self, alloc: Global, plan: &[PlainPlanned], first: u64) -> Result<(), NoMemory>
        requires few { first < 2 ^ 62 }
        ensures ok { OnOk result (self.new ≡ captured (map plan_seen plan.now) first self.old) }
        ensures err { OnErr result (self.new ≡ self.old) }
    {
        let mut new = jobs_of(alloc, &self.desk, self.region_taken(), first, plan)?;
        let none = Everywhere { mark: false };
        let pending = PointSet::of(alloc, self.desk.wide(), self.desk.high(), &none)?;
        let delay = self.delay_captured();
        self.jobs.append(&mut new)?;
        self.delay = delay;
        self.pending = pending;
        Ok(())
    }

    /// A capture by a plan, its jobs numbered from `first` on: of the pending points, or, where there are
    /// none, of the lossy ones. `weight` is that of the client's connection. A capture that is refused
    /// changes nothing; want of memory comes only where nothing else refuses it.
    pub fn capture(
        &mut self,
        alloc: Global,
        plan: &[PlainPlanned],
        first: u64,
        now: u64,
        weight: u64,
    ) -> Result<PlainCapture, NoMemory>
        ensures answer { IfOk result (λ a. a ≡ answered (capture_answer now weight first self.old) (length plan.now)) }
        ensures ok { OnOk result (self.new ≡ captured_where (is_allowed (capture_answer now weight first self.old)) (map plan_seen plan.now) first self.old) }
        ensures err { OnErr result (self.new ≡ self.old) }
        ensures last { OnErr result (capture_answer now weight first self.old ≡ Allowed) }
    {
        if !self.mapped {
            return Ok(PlainCapture::Unmapped);
        }
        if self.is_clean() {
            return Ok(PlainCapture::Clean);
        }
        if now < self.earliest() {
            return Ok(PlainCapture::Early(self.earliest()));
        }
        if self.load() >= 64 {
            return Ok(PlainCapture::Congested(self.load()));
        }
        if weight >= 33_554_432 {
            return Ok(PlainCapture::Heavy(weight));
        }
        if first >= 1 << 62 {
            return Ok(PlainCapture::Spent);
        }
        self.take(alloc, plan, first)?;
        Ok(PlainCapture::Jobs(plan.len() as u64))
    }
}
