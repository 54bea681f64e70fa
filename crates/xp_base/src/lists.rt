// Lists over one `Vec`, which contracts see as lists.
ghost use Rattle.std.specs.Prelude.{◌≡◌};

use crate::pixel::Pixel;
use crate::rect::Rect;
use std::marker::Model;

/// A string of bytes.
#[derive(Debug, Drop)]
pub struct Bytes(Vec<u8>);

impl Model for Bytes {
    ghost use Rattle.std.specs.Prelude.{List, ℕ};

    ghost Value = { List ℕ };

    ghost view = { λ b. b.0.items };
}

impl Bytes {
    pub fn new(items: Vec<u8>) -> Bytes
        ensures { result ≡ items.items }
    {
        Bytes(items)
    }

    pub fn as_slice(&self) -> &[u8]
        ensures { result.now ≡ self.now }
    {
        self.0.as_slice()
    }

    pub fn into_vec(self) -> Vec<u8>
        ensures { result.items ≡ self }
    {
        let Bytes(items) = self;
        items
    }
}

/// Pixels, row by row from the top where they are those of a rectangle.
#[derive(Debug, Drop)]
pub struct Pixels(Vec<Pixel>);

impl Model for Pixels {
    ghost use Rattle.std.specs.Prelude.{List, ℕ};

    ghost Value = { List ℕ };

    ghost view = { λ p. p.0.items };
}

impl Pixels {
    pub fn new(items: Vec<Pixel>) -> Pixels
        ensures { result ≡ items.items }
    {
        Pixels(items)
    }

    pub fn as_slice(&self) -> &[Pixel]
        ensures { result.now ≡ self.now }
    {
        self.0.as_slice()
    }

    pub fn into_vec(self) -> Vec<Pixel>
        ensures { result.items ≡ self }
    {
        let Pixels(items) = self;
        items
    }
}

/// Rectangles in an order that their maker states.
#[derive(Debug, Drop)]
pub struct Rects(Vec<Rect>);

impl Model for Rects {
    ghost use Rattle.std.specs.Prelude.{List};
    ghost use Rattle.xp_base.specs.Points.{Rectangle};

    ghost Value = { List Rectangle };

    ghost view = { λ r. r.0.items };
}

impl Rects {
    pub fn new(items: Vec<Rect>) -> Rects
        ensures { result ≡ items.items }
    {
        Rects(items)
    }

    pub fn as_slice(&self) -> &[Rect]
        ensures { result.now ≡ self.now }
    {
        self.0.as_slice()
    }

    pub fn into_vec(self) -> Vec<Rect>
        ensures { result.items ≡ self }
    {
        let Rects(items) = self;
        items
    }
}
