// A pixel's number.
ghost use Rattle.std.specs.Prelude.{◌≡◌, ◌≤◌, ◌<◌, ◌^◌, ◌↔◌, IsNone, IfSome};

use std::marker::Model;

/// A colour: red in the high byte, then green, then blue. A number below 2^24.
#[derive(Clone, Copy, Debug, PartialEq, Eq, PartialOrd, Ord, Hash)]
pub struct Pixel(u32);

impl Model for Pixel {
    ghost use Rattle.std.specs.Prelude.{ℕ, ◌<◌, ◌^◌};

    ghost Value = { ℕ };

    ghost view = { λ p. p.0 };

    ghost invariant = { λ p. p.0 < 2 ^ 24 };

    ghost inverse = { λ n. record { 0 = n } };
}

impl Pixel {
    /// All channels 0.
    pub const BLACK: Pixel = Pixel(0);

    pub fn new(n: u32) -> Option<Pixel>
        ensures none { IsNone result ↔ (2 ^ 24 ≤ n) }
        ensures some { IfSome result (λ p. p ≡ n) }
    {
        if n < 1 << 24 { Some(Pixel(n)) } else { None }
    }

    pub fn get(self) -> u32
        ensures value { result ≡ self }
        ensures small { result < 2 ^ 24 }
    {
        self.0
    }
}
