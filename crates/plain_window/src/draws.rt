// Results, what is written, and a resize, of a window that is played plainly.
ghost use Rattle.std.specs.Prelude.{◌≡◌, ◌≤◌, ◌<◌, ◌^◌, ◌&&◌, ◌||◌, not, false, if◌then◌else◌, IfOk, OnOk, OnErr, map, nat_le, Some, [], ◌∷◌, ◌++◌};
ghost use Rattle.xp_base.specs.Counts.{greatest};
ghost use Rattle.xp_base.specs.Points.{is_in, survives};
ghost use Rattle.delivery_model.specs.Grids.{grid, number, number_in, points, has};
ghost use Rattle.delivery_model.specs.Window.{WindowResized};
ghost use Rattle.delivery_model.specs.Client.{applied, shown};
ghost use Rattle.delivery_model.specs.Events.{queued, relief_queued, lossy_queued, written, resized, resized_from, desk_resized, jobs_relieve, with_relief};
ghost use Rattle.plain_window.specs.Plain.{even_below, packet_seen};

use crate::parts::{PlainDraw, PlainJob, PlainPacket, PlainSent};
use crate::selections::{Kept, OwedAnew, Sizes, Surviving, WithDraw};
use crate::window::PlainWindow;
use point_grids::{OneNumber, PixelGrid, PointSet, Resized, WithLossy, WithRect, WithoutRect};
use std::alloc::Global;
use xp_base::{Coding, NoMemory, Rect};

/// What a packet does to the client's window.
fn apply(
    alloc: Global,
    client: &mut Option<PixelGrid>,
    packet: &PlainPacket,
) -> Result<(), NoMemory>
    ensures ok { OnOk result (client.new ≡ applied even_below client.old (packet_seen packet.now)) }
    ensures err { OnErr result (client.new ≡ client.old) }
{
    match packet {
        PlainPacket::NewWindow { size } => {
            if client.is_none() {
                let _area = size.area();
                *client = Some(PixelGrid::of(alloc, size.w, size.h, &OneNumber { number: 0 })?);
            }
        }
        PlainPacket::WindowResized { size } => {
            if let Some(grid) = client {
                *grid = resized_client(alloc, grid, *size)?;
            }
        }
        PlainPacket::Draws(draw) => {
            if let Some(grid) = client {
                *grid = drawn_client(alloc, grid, draw)?;
            }
        }
    }
    Ok(())
}

fn resized_client(alloc: Global, old: &PixelGrid, size: Rect) -> Result<PixelGrid, NoMemory>
    ensures { IfOk result (λ g. Some g ≡ applied even_below (Some old.now) (WindowResized size.w size.h)) }
{
    let _area = size.area();
    let sizes = Sizes {
        wide_before: old.wide(),
        high_before: old.high(),
        wide: size.w,
        high: size.h,
    };
    Ok(PixelGrid::of(alloc, size.w, size.h, &Kept { sizes, grid: old })?)
}

fn drawn_client(alloc: Global, old: &PixelGrid, draw: &PlainDraw) -> Result<PixelGrid, NoMemory>
    ensures { IfOk result (λ g. g ≡ grid old.now.wide old.now.high (λ x y. if is_in draw.now.capture.rect x y then shown even_below draw.now.capture.coding (number_in draw.now.capture.rect draw.now.capture.pixels x y) else number old.now x y)) }
{
    let new = WithDraw {
        grid: old,
        rect: draw.rect,
        coding: draw.coding,
        pixels: draw.pixels.as_slice(),
    };
    Ok(PixelGrid::of(alloc, old.wide(), old.high(), &new)?)
}

impl PlainWindow {
    /// Bytes of the front packet were written: `taken` of the `left` that were left. A packet counts
    /// once its last byte was written.
    pub fn write(&mut self, alloc: Global, left: u32, taken: u32) -> Result<(), NoMemory>
        ensures ok { OnOk result (self.new ≡ written even_below (nat_le left taken) self.old) }
        ensures err { OnErr result (self.new ≡ self.old) }
        ensures last { OnErr result (left ≤ taken) }
    {
        if taken < left || self.packets.is_empty() {
            return Ok(());
        }
        apply(alloc, &mut self.client, &self.packets[0])?;
        self.packets.remove(0);
        Ok(())
    }

    /// The job's draw is queued with the next sequence number. After want of memory the window is not to be
    /// used.
    #[tactic(auto, using(crate::proofs::Loops::map_more))]
    pub(crate) fn queue(&mut self, alloc: Global, job: PlainJob, now: u64) -> Result<(), NoMemory>
        requires clock { now ≤ 2 ^ 62 }
        requires number { self.old.next_sequence < greatest }
        ensures { OnOk result (self.new ≡ queued now job self.old) }
    {
        let PlainJob {
            number: _,
            rect,
            coding,
            pixels,
            relief,
            encoded: _,
        } = job;
        let relief = self.relief_queued(alloc, rect, coding, relief)?;
        let lossy = self.lossy_queued(alloc, rect, coding)?;
        self.packets.push(PlainPacket::Draws(PlainDraw {
            sequence: self.next_sequence,
            rect,
            coding,
            pixels,
            relief,
        }))?;
        self.unacknowledged.push(PlainSent {
            sequence: self.next_sequence,
            rect,
        })?;
        self.lossy = lossy;
        if coding == Coding::Lossy {
            self.lossy_since = now;
        }
        self.next_sequence += 1;
        Ok(())
    }

    fn relief_queued(
        &self,
        alloc: Global,
        rect: Rect,
        coding: Coding,
        relief: PointSet,
    ) -> Result<PointSet, NoMemory>
        ensures { IfOk result (λ p. p ≡ relief_queued self.now rect relief coding) }
    {
        match coding {
            Coding::Lossy => Ok(relief),
            Coding::Exact => self.with_lossy(alloc, rect, &relief),
        }
    }

    fn with_lossy(&self, alloc: Global, rect: Rect, relief: &PointSet) -> Result<PointSet, NoMemory>
        ensures { IfOk result (λ p. p ≡ points self.now.desk.wide self.now.desk.high (λ x y. has relief.now x y || (has self.now.lossy x y && is_in rect x y))) }
    {
        let test = WithLossy {
            relief,
            lossy: &self.lossy,
            rect,
        };
        Ok(PointSet::of(alloc, self.desk.wide(), self.desk.high(), &test)?)
    }

    fn lossy_with(&self, alloc: Global, rect: Rect) -> Result<PointSet, NoMemory>
        ensures { IfOk result (λ p. p ≡ points self.now.desk.wide self.now.desk.high (λ x y. has self.now.lossy x y || is_in rect x y)) }
    {
        let test = WithRect {
            set: &self.lossy,
            rect,
        };
        Ok(PointSet::of(alloc, self.desk.wide(), self.desk.high(), &test)?)
    }

    fn lossy_without(&self, alloc: Global, rect: Rect) -> Result<PointSet, NoMemory>
        ensures { IfOk result (λ p. p ≡ points self.now.desk.wide self.now.desk.high (λ x y. has self.now.lossy x y && not (is_in rect x y))) }
    {
        let test = WithoutRect {
            set: &self.lossy,
            rect,
        };
        Ok(PointSet::of(alloc, self.desk.wide(), self.desk.high(), &test)?)
    }

    fn lossy_queued(&self, alloc: Global, rect: Rect, coding: Coding) -> Result<PointSet, NoMemory>
        ensures { IfOk result (λ p. p ≡ lossy_queued self.now rect coding) }
    {
        match coding {
            Coding::Exact => self.lossy_without(alloc, rect),
            Coding::Lossy => self.lossy_with(alloc, rect),
        }
    }

    /// The server's window and the client's get another size; the client keeps what both sizes share.
    #[tactic(auto, using(crate::proofs::Resizing::resized_same))]
    pub fn resize(&mut self, alloc: Global, size: Rect, now: u64) -> Result<(), NoMemory>
        requires clock { now ≤ 2 ^ 62 }
        ensures ok { OnOk result (self.new ≡ resized size.w size.h now self.old) }
        ensures err { OnErr result (self.new ≡ self.old) }
    {
        let sizes = Sizes {
            wide_before: self.desk.wide(),
            high_before: self.desk.high(),
            wide: size.w,
            high: size.h,
        };
        self.resize_from(alloc, sizes, size, now)
    }

    #[tactic(auto, using(crate::proofs::Loops::map_more))]
    fn resize_from(
        &mut self,
        alloc: Global,
        sizes: Sizes,
        size: Rect,
        now: u64,
    ) -> Result<(), NoMemory>
        requires wide { sizes.wide ≡ size.w }
        requires high { sizes.high ≡ size.h }
        requires clock { now ≤ 2 ^ 62 }
        ensures ok { OnOk result (self.new ≡ resized_from sizes.wide_before sizes.high_before sizes.wide sizes.high now self.old) }
        ensures err { OnErr result (self.new ≡ self.old) }
    {
        let _area = size.area();
        let desk = self.desk_resized(alloc, sizes)?;
        let pending = self.pending_resized(alloc, sizes)?;
        let lossy = self.lossy_resized(alloc, sizes)?;
        let packets = self.packets_resized(alloc, sizes, size)?;
        self.packets = packets;
        self.desk = desk;
        self.lossy = lossy;
        self.jobs.clear();
        self.put_pending(pending, now);
        Ok(())
    }

    fn desk_resized(&self, alloc: Global, sizes: Sizes) -> Result<PixelGrid, NoMemory>
        requires some { (1 ≤ sizes.wide) × (sizes.wide ≤ 4096) }
        requires any { (1 ≤ sizes.high) × (sizes.high ≤ 4096) }
        ensures { IfOk result (λ g. g ≡ desk_resized sizes.wide sizes.high self.now.desk) }
    {
        Ok(PixelGrid::of(alloc, sizes.wide, sizes.high, &Resized { desk: &self.desk })?)
    }

    fn pending_resized(&self, alloc: Global, sizes: Sizes) -> Result<PointSet, NoMemory>
        requires some { (1 ≤ sizes.wide) × (sizes.wide ≤ 4096) }
        requires any { (1 ≤ sizes.high) × (sizes.high ≤ 4096) }
        ensures { IfOk result (λ p. p ≡ points sizes.wide sizes.high (λ x y. not (survives sizes.wide_before sizes.high_before sizes.wide sizes.high x y) || (has self.now.pending x y || jobs_relieve self.now.jobs x y))) }
    {
        let owed = OwedAnew {
            sizes,
            set: &self.pending,
            jobs: self.jobs.as_slice(),
        };
        Ok(PointSet::of(alloc, sizes.wide, sizes.high, &owed)?)
    }

    fn lossy_resized(&self, alloc: Global, sizes: Sizes) -> Result<PointSet, NoMemory>
        requires some { (1 ≤ sizes.wide) × (sizes.wide ≤ 4096) }
        requires any { (1 ≤ sizes.high) × (sizes.high ≤ 4096) }
        ensures { IfOk result (λ p. p ≡ points sizes.wide sizes.high (λ x y. has self.now.lossy x y && survives sizes.wide_before sizes.high_before sizes.wide sizes.high x y)) }
    {
        let surviving = Surviving {
            sizes,
            set: &self.lossy,
        };
        Ok(PointSet::of(alloc, sizes.wide, sizes.high, &surviving)?)
    }

    #[tactic(auto, using(crate::proofs::Loops::map_more))]
    fn packets_resized(
        &self,
        alloc: Global,
        sizes: Sizes,
        size: Rect,
    ) -> Result<Vec<PlainPacket>, NoMemory>
        requires wide { sizes.wide ≡ size.w }
        requires high { sizes.high ≡ size.h }
        ensures { IfOk result (λ v. map packet_seen v.items ≡ map (with_relief sizes.wide sizes.high (survives sizes.wide_before sizes.high_before sizes.wide sizes.high)) self.now.packets ++ WindowResized sizes.wide sizes.high ∷ []) }
    {
        let _area = size.area();
        let mut packets = cut_all(alloc, sizes, self.packets.as_slice())?;
        packets.push(PlainPacket::WindowResized { size })?;
        Ok(packets)
    }
}

/// A waiting packet, of whose relief only what survives is left.
fn cut_packet(alloc: Global, sizes: Sizes, packet: &PlainPacket) -> Result<PlainPacket, NoMemory>
    requires some { (1 ≤ sizes.wide) × (sizes.wide ≤ 4096) }
    requires high { sizes.high ≤ 4096 }
    ensures { IfOk result (λ p. packet_seen p ≡ with_relief sizes.wide sizes.high (survives sizes.wide_before sizes.high_before sizes.wide sizes.high) (packet_seen packet.now)) }
{
    match packet {
        PlainPacket::NewWindow { size } => Ok(PlainPacket::NewWindow { size: *size }),
        PlainPacket::WindowResized { size } => Ok(PlainPacket::WindowResized { size: *size }),
        PlainPacket::Draws(draw) => {
            let test = Surviving {
                sizes,
                set: &draw.relief,
            };
            let relief = PointSet::of(alloc, sizes.wide, sizes.high, &test)?;
            let pixels = Vec::from_slice(alloc, draw.pixels.as_slice())?;
            Ok(PlainPacket::Draws(PlainDraw {
                sequence: draw.sequence,
                rect: draw.rect,
                coding: draw.coding,
                pixels,
                relief,
            }))
        }
    }
}

fn cut_all(
    alloc: Global,
    sizes: Sizes,
    packets: &[PlainPacket],
) -> Result<Vec<PlainPacket>, NoMemory>
    requires some { (1 ≤ sizes.wide) × (sizes.wide ≤ 4096) }
    requires high { sizes.high ≤ 4096 }
    ensures { IfOk result (λ v. map packet_seen v.items ≡ map (with_relief sizes.wide sizes.high (survives sizes.wide_before sizes.high_before sizes.wide sizes.high)) (map packet_seen packets.now)) }
{
    let mut cut = Vec::new(alloc);
    for packet in packets {
        cut.push(cut_packet(alloc, sizes, packet)?)?;
    }
    Ok(cut)
}
