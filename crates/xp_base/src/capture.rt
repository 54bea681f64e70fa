// Pixels as they were at one moment.
ghost use Rattle.std.specs.Prelude.{◌≡◌, ◌==◌, ◌↔◌, IsTrue, length};
ghost use Rattle.xp_base.specs.Points.{area};

use crate::coding::Coding;
use crate::lists::Pixels;
use crate::rect::Rect;
use std::marker::Model;

/// The pixels of a rectangle of a window as they were at one moment, row by row, and how they are to
/// be coded. There is one pixel for each point of the rectangle.
#[derive(Debug, Drop)]
pub struct Capture {
    pub rect: Rect,
    pub coding: Coding,
    pub pixels: Pixels,
}

impl Model for Capture {
    ghost use Rattle.xp_base.specs.Captures.{Captured, IsCapture};

    ghost Value = { Captured };

    ghost view = { λ c. record { rect = c.rect; coding = c.coding; pixels = c.pixels } };

    ghost invariant = { λ c. IsCapture (record { rect = c.rect; coding = c.coding; pixels = c.pixels }) };
}

impl Capture {
    ghost use Rattle.xp_base.specs.Captures.{Captured, IsCapture};

    pub fn new(rect: Rect, coding: Coding, pixels: Pixels) -> Capture
        requires { length pixels ≡ area rect }
        ensures { result ≡ record { rect = rect; coding = coding; pixels = pixels } }
    {
        Capture {
            rect,
            coding,
            pixels,
        }
    }
}
