// The generator of numbers that noise is made of.
ghost use Rattle.std.specs.Prelude.{◌≡◌, ◌<◌, ◌^◌, IfOk};
ghost use Rattle.window_model.specs.Generator.{next_state, number_of, colour_of, noise};

use std::alloc::Global;
use std::marker::Model;
use xp_base::{NoMemory, Pixel, Pixels};

/// A generator of numbers below 2^31. Its state is a number below 2^64, at first the seed; each step multiplies it by
/// 6364136223846793005 and adds 1442695040888963407, modulo 2^64, and gives its upper 31 bits. This project's own.
#[derive(Debug, Drop)]
pub struct Generator {
    state: u64,
}

impl Model for Generator {
    ghost use Rattle.std.specs.Prelude.{ℕ, ◌<◌, ◌^◌};

    ghost Value = { ℕ };

    ghost view = { λ g. g.state };

    ghost invariant = { λ g. g.state < 2 ^ 64 };
}

impl Generator {
    pub fn new(seed: u64) -> Generator
        ensures { result ≡ seed }
    {
        Generator { state: seed }
    }

    /// The next number.
    pub fn next(&mut self) -> u32
        ensures state { self.new ≡ next_state self.old }
        ensures value { result ≡ number_of (next_state self.old) }
        ensures small { result < 2 ^ 31 }
    {
        self.state = self
            .state
            .wrapping_mul(6_364_136_223_846_793_005)
            .wrapping_add(1_442_695_040_888_963_407);
        (self.state >> 33) as u32
    }

    /// The next number modulo 2^24, as a pixel.
    pub fn next_pixel(&mut self) -> Pixel
        ensures state { self.new ≡ next_state self.old }
        ensures value { result ≡ colour_of (next_state self.old) }
    {
        match Pixel::new(self.next() % (1 << 24)) {
            Some(pixel) => pixel,
            None => unreachable!(),
        }
    }
}

/// The first `count` pixels of the generator that starts with the seed.
pub fn noise_pixels(alloc: Global, seed: u32, count: u32) -> Result<Pixels, NoMemory>
    ensures { IfOk result (λ pixels. pixels ≡ noise seed count) }
{
    let mut pixels = Vec::with_capacity(alloc, count as usize)?;
    let mut generator = Generator::new(u64::from(seed));
    while pixels.len() < count as usize {
        pixels.push(generator.next_pixel())?;
    }
    Ok(Pixels::new(pixels))
}
