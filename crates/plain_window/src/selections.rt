// Which points the new sets of a step have, and which numbers its new grids.
ghost use Rattle.std.specs.Prelude.{◌≡◌, map};
ghost use Rattle.std.specs.List.{list_any};
ghost use Rattle.delivery_model.specs.Owed.{packet_relieves, packets_relieve};
ghost use Rattle.delivery_model.specs.Events.{jobs_relieve};
ghost use Rattle.xp_base.specs.Points.{survives};
ghost use Rattle.delivery_model.specs.Client.{shown};
ghost use Rattle.plain_window.specs.Plain.{even_below, packet_seen};

use crate::parts::{PlainJob, PlainPacket};
use point_grids::{AtPoint, PixelGrid, PointSet, number_in};
use xp_base::{Coding, Rect};

/// Whether some job in hand relieves the point.
pub fn jobs_relieve(jobs: &[PlainJob], x: u32, y: u32) -> bool
    ensures { result ≡ jobs_relieve jobs.now x y }
{
    jobs.iter().any(|job| job.relief.has(x, y))
}

/// The two sizes of a resize.
#[derive(Clone, Copy, Debug)]
pub struct Sizes {
    pub wide_before: u32,
    pub high_before: u32,
    pub wide: u32,
    pub high: u32,
}

/// Whether the point keeps its number at the client.
pub fn survives(sizes: Sizes, x: u32, y: u32) -> bool
    ensures { result ≡ survives sizes.wide_before sizes.high_before sizes.wide sizes.high x y }
{
    (x < sizes.wide_before && y < sizes.high_before) && (x < sizes.wide && y < sizes.high)
}

/// The points of a set, and those that a job in hand relieves.
#[derive(Clone, Copy)]
pub struct WithJobs<'a> {
    pub set: &'a PointSet,
    pub jobs: &'a [PlainJob],
}

impl AtPoint<bool> for WithJobs<'_> {
    ghost use Rattle.std.specs.Prelude.{◌||◌};
    ghost use Rattle.delivery_model.specs.Grids.{has};
    ghost use Rattle.delivery_model.specs.Events.{jobs_relieve};

    ghost value = { λ t x y. has t.set.now x y || jobs_relieve t.jobs.now x y };

    fn at(&self, x: u32, y: u32) -> bool {
        self.set.has(x, y) || jobs_relieve(self.jobs, x, y)
    }
}

/// The points that do not survive a resize, those of a set, and those that a job in hand relieves.
#[derive(Clone, Copy)]
pub struct OwedAnew<'a> {
    pub sizes: Sizes,
    pub set: &'a PointSet,
    pub jobs: &'a [PlainJob],
}

impl AtPoint<bool> for OwedAnew<'_> {
    ghost use Rattle.std.specs.Prelude.{◌||◌, not};
    ghost use Rattle.delivery_model.specs.Grids.{has};
    ghost use Rattle.delivery_model.specs.Events.{jobs_relieve};
    ghost use Rattle.xp_base.specs.Points.{survives};

    ghost value = { λ t x y. not (survives t.sizes.wide_before t.sizes.high_before t.sizes.wide t.sizes.high x y) || (has t.set.now x y || jobs_relieve t.jobs.now x y) };

    fn at(&self, x: u32, y: u32) -> bool {
        !survives(self.sizes, x, y) || (self.set.has(x, y) || jobs_relieve(self.jobs, x, y))
    }
}

/// The points of a set that survive a resize.
#[derive(Clone, Copy)]
pub struct Surviving<'a> {
    pub sizes: Sizes,
    pub set: &'a PointSet,
}

impl AtPoint<bool> for Surviving<'_> {
    ghost use Rattle.std.specs.Prelude.{◌&&◌};
    ghost use Rattle.delivery_model.specs.Grids.{has};
    ghost use Rattle.xp_base.specs.Points.{survives};

    ghost value = { λ t x y. has t.set.now x y && survives t.sizes.wide_before t.sizes.high_before t.sizes.wide t.sizes.high x y };

    fn at(&self, x: u32, y: u32) -> bool {
        self.set.has(x, y) && survives(self.sizes, x, y)
    }
}

/// A client's numbers that survive a resize, else 0.
#[derive(Clone, Copy)]
pub struct Kept<'a> {
    pub sizes: Sizes,
    pub grid: &'a PixelGrid,
}

impl AtPoint<u32> for Kept<'_> {
    ghost use Rattle.std.specs.Prelude.{if◌then◌else◌};
    ghost use Rattle.delivery_model.specs.Grids.{number};
    ghost use Rattle.xp_base.specs.Points.{survives};

    ghost value = { λ t x y. if survives t.sizes.wide_before t.sizes.high_before t.sizes.wide t.sizes.high x y then number t.grid.now x y else 0 };

    fn at(&self, x: u32, y: u32) -> u32 {
        if survives(self.sizes, x, y) {
            self.grid.number(x, y)
        } else {
            0
        }
    }
}

/// The number that a draw of this coding shows for a number.
pub fn shown(coding: Coding, number: u32) -> u32
    ensures { result ≡ shown even_below coding number }
{
    match coding {
        Coding::Exact => number,
        Coding::Lossy => number / 2 * 2,
    }
}

/// A client's numbers, with those that a draw shows in its rectangle.
#[derive(Clone, Copy)]
pub struct WithDraw<'a> {
    pub grid: &'a PixelGrid,
    pub rect: Rect,
    pub coding: Coding,
    pub pixels: &'a [u32],
}

impl AtPoint<u32> for WithDraw<'_> {
    ghost use Rattle.std.specs.Prelude.{if◌then◌else◌};
    ghost use Rattle.xp_base.specs.Points.{is_in};
    ghost use Rattle.delivery_model.specs.Grids.{number, number_in};
    ghost use Rattle.delivery_model.specs.Client.{shown};
    ghost use Rattle.plain_window.specs.Plain.{even_below};

    ghost value = { λ t x y. if is_in t.rect x y then shown even_below t.coding (number_in t.rect t.pixels.now x y) else number t.grid.now x y };

    fn at(&self, x: u32, y: u32) -> u32 {
        if self.rect.contains(x, y) {
            shown(self.coding, number_in(self.rect, self.pixels, x, y))
        } else {
            self.grid.number(x, y)
        }
    }
}

/// Whether the packet's draw relieves the point.
pub fn packet_relieves(packet: &PlainPacket, x: u32, y: u32) -> bool
    ensures { result ≡ packet_relieves (packet_seen packet.now) x y }
{
    match packet {
        PlainPacket::NewWindow { .. } => false,
        PlainPacket::WindowResized { .. } => false,
        PlainPacket::Draws(draw) => draw.relief.has(x, y),
    }
}

/// Whether some waiting draw relieves the point.
pub fn packets_relieve(packets: &[PlainPacket], x: u32, y: u32) -> bool
    ensures { result ≡ packets_relieve (map packet_seen packets.now) x y }
{
    any_packet(packets, x, y)
}

fn any_packet(packets: &[PlainPacket], x: u32, y: u32) -> bool
    ensures { result ≡ list_any (λ p. packet_relieves (packet_seen p) x y) packets.now }
{
    packets.iter().any(|packet| packet_relieves(packet, x, y))
}

/// The points that a client is owed.
#[derive(Clone, Copy)]
pub struct IsOwed<'a> {
    pub pending: &'a PointSet,
    pub jobs: &'a [PlainJob],
    pub packets: &'a [PlainPacket],
    pub lossy: &'a PointSet,
}

impl AtPoint<bool> for IsOwed<'_> {
    ghost use Rattle.std.specs.Prelude.{◌||◌, map};
    ghost use Rattle.delivery_model.specs.Grids.{has};
    ghost use Rattle.delivery_model.specs.Events.{jobs_relieve};
    ghost use Rattle.delivery_model.specs.Owed.{packets_relieve};
    ghost use Rattle.plain_window.specs.Plain.{packet_seen};

    ghost value = { λ t x y. (has t.pending.now x y || jobs_relieve t.jobs.now x y) || (packets_relieve (map packet_seen t.packets.now) x y || has t.lossy.now x y) };

    fn at(&self, x: u32, y: u32) -> bool {
        (self.pending.has(x, y) || jobs_relieve(self.jobs, x, y))
            || (packets_relieve(self.packets, x, y) || self.lossy.has(x, y))
    }
}
