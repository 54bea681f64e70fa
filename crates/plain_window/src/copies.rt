// Copies of a window's parts, on which a step that takes memory more than once is tried.
ghost use Rattle.std.specs.Prelude.{◌≡◌, IfOk};

use crate::parts::{PlainDraw, PlainJob, PlainPacket};
use crate::window::PlainWindow;
use point_grids::PixelGrid;
use std::alloc::Global;
use xp_base::NoMemory;

fn copied_job(alloc: Global, job: &PlainJob) -> Result<PlainJob, NoMemory>
    ensures { IfOk result (λ copy. copy ≡ job.now) }
{
    Ok(PlainJob {
        number: job.number,
        rect: job.rect,
        coding: job.coding,
        pixels: Vec::from_slice(alloc, job.pixels.as_slice())?,
        relief: job.relief.copy(alloc)?,
        encoded: job.encoded,
    })
}

fn copied_jobs(alloc: Global, jobs: &[PlainJob]) -> Result<Vec<PlainJob>, NoMemory>
    ensures { IfOk result (λ copy. copy.items ≡ jobs.now) }
{
    let mut copied = Vec::new(alloc);
    for job in jobs {
        copied.push(copied_job(alloc, job)?)?;
    }
    Ok(copied)
}

fn copied_draw(alloc: Global, draw: &PlainDraw) -> Result<PlainDraw, NoMemory>
    ensures { IfOk result (λ copy. copy ≡ draw.now) }
{
    Ok(PlainDraw {
        sequence: draw.sequence,
        rect: draw.rect,
        coding: draw.coding,
        pixels: Vec::from_slice(alloc, draw.pixels.as_slice())?,
        relief: draw.relief.copy(alloc)?,
    })
}

fn copied_packet(alloc: Global, packet: &PlainPacket) -> Result<PlainPacket, NoMemory>
    ensures { IfOk result (λ copy. copy ≡ packet.now) }
{
    match packet {
        PlainPacket::NewWindow { size } => Ok(PlainPacket::NewWindow { size: *size }),
        PlainPacket::WindowResized { size } => Ok(PlainPacket::WindowResized { size: *size }),
        PlainPacket::Draws(draw) => Ok(PlainPacket::Draws(copied_draw(alloc, draw)?)),
    }
}

fn copied_packets(alloc: Global, packets: &[PlainPacket]) -> Result<Vec<PlainPacket>, NoMemory>
    ensures { IfOk result (λ copy. copy.items ≡ packets.now) }
{
    let mut copied = Vec::new(alloc);
    for packet in packets {
        copied.push(copied_packet(alloc, packet)?)?;
    }
    Ok(copied)
}

fn copied_client(alloc: Global, client: &Option<PixelGrid>) -> Result<Option<PixelGrid>, NoMemory>
    ensures { IfOk result (λ copy. copy ≡ client.now) }
{
    match client {
        None => Ok(None),
        Some(grid) => Ok(Some(grid.copy(alloc)?)),
    }
}

impl PlainWindow {
    pub(crate) fn copy(&self, alloc: Global) -> Result<PlainWindow, NoMemory>
        ensures { IfOk result (λ copy. copy ≡ self.now) }
    {
        Ok(PlainWindow {
            desk: self.desk.copy(alloc)?,
            client: copied_client(alloc, &self.client)?,
            packets: copied_packets(alloc, self.packets.as_slice())?,
            jobs: copied_jobs(alloc, self.jobs.as_slice())?,
            pending: self.pending.copy(alloc)?,
            pending_since: self.pending_since,
            lossy: self.lossy.copy(alloc)?,
            lossy_since: self.lossy_since,
            unacknowledged: Vec::from_slice(alloc, self.unacknowledged.as_slice())?,
            next_sequence: self.next_sequence,
            mapped: self.mapped,
            delay: self.delay,
        })
    }
}
