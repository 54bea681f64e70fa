// The parts of a window that is played plainly: jobs, draws, packets, and the rectangles of a plan.
ghost use Rattle.std.specs.Prelude.{◌≡◌};

use point_grids::PointSet;
use std::marker::Model;
use xp_base::{Coding, Rect};

/// A rectangle of a capture's plan, and how it is to be coded.
#[derive(Clone, Copy, Debug, PartialEq, Eq)]
pub struct PlainPlanned {
    pub rect: Rect,
    pub coding: Coding,
}

/// A job in hand.
#[derive(Debug, Drop)]
pub struct PlainJob {
    pub number: u64,
    pub rect: Rect,
    pub coding: Coding,
    pub pixels: Vec<u32>,
    pub relief: PointSet,
    pub encoded: bool,
}

impl Model for PlainJob {
    ghost use Rattle.delivery_model.specs.Window.{Job};

    ghost Value = { Job };

    ghost view = { λ j. record {
      number = j.number;
      capture = record { rect = j.rect; coding = j.coding; pixels = j.pixels.items };
      relief = j.relief;
      encoded = j.encoded;
    } };
}

/// A draw that waits to be written.
#[derive(Debug, Drop)]
pub struct PlainDraw {
    pub sequence: u64,
    pub rect: Rect,
    pub coding: Coding,
    pub pixels: Vec<u32>,
    pub relief: PointSet,
}

impl Model for PlainDraw {
    ghost use Rattle.delivery_model.specs.Window.{Draw};

    ghost Value = { Draw };

    ghost view = { λ d. record {
      sequence = d.sequence;
      capture = record { rect = d.rect; coding = d.coding; pixels = d.pixels.items };
      relief = d.relief;
    } };
}

/// A packet that waits to be written.
#[derive(Debug, Drop)]
pub enum PlainPacket {
    /// Of the size of this rectangle.
    NewWindow { size: Rect },
    /// Of the size of this rectangle.
    WindowResized { size: Rect },
    Draws(PlainDraw),
}

/// A draw that was queued and is not acknowledged.
#[derive(Clone, Copy, Debug, PartialEq, Eq)]
pub struct PlainSent {
    pub sequence: u64,
    pub rect: Rect,
}

impl Model for PlainSent {
    ghost use Rattle.delivery_model.specs.Window.{Sent};

    ghost Value = { Sent };

    ghost view = { λ s. record { sequence = s.sequence; rect = s.rect } };

    ghost inverse = { λ s. record { sequence = s.sequence; rect = s.rect } };
}
