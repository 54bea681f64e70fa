// Sixteen pixels at once, on lanes. The rules are those of the plain bodies, as shifts of each lane.
ghost use Rattle.std.specs.Prelude.{◌≡◌, ◌<◌, ◌^◌, length};
ghost use Rattle.std.specs.List.{AllByRecursion};
ghost use Rattle.xp_base.specs.declared.coding.Coding.TheVariants.{Exact, Lossy};
ghost use Rattle.rgb_encoders.specs.PixelBytes.{coded_bytes};
ghost use Rattle.rgb_encoders.specs.Rows.{row_colours};

use std::simd::prelude::*;
use xp_base::Pixel;

/// How many pixels a block has.
pub(crate) const LANES: usize = 16;

/// The exact bytes of a block.
#[inline(always)]
pub(crate) fn exact_bytes(numbers: [u32; 16]) -> [u8; 64]
    requires sized { length numbers ≡ 16 }
    requires small { AllByRecursion (λ n. n < 2 ^ 24) numbers }
    ensures { result ≡ coded_bytes Exact numbers }
{
    let opaque = u32x16::from_array(numbers) + u32x16::splat(0xff00_0000);
    opaque.to_le_bytes().to_array()
}

/// The lossy bytes of a block.
#[inline(always)]
pub(crate) fn lossy_bytes(numbers: [u32; 16]) -> [u8; 32]
    requires sized { length numbers ≡ 16 }
    requires small { AllByRecursion (λ n. n < 2 ^ 24) numbers }
    ensures { result ≡ coded_bytes Lossy numbers }
{
    let colours = u32x16::from_array(numbers);
    let red = colours >> u32x16::splat(19) << u32x16::splat(11);
    let green = colours << u32x16::splat(16) >> u32x16::splat(26) << u32x16::splat(5);
    let blue = colours << u32x16::splat(24) >> u32x16::splat(27);
    let lossy = red + green + blue;
    lossy.cast::<u16>().to_le_bytes().to_array()
}

/// The colours of the exact bytes of a block, as numbers.
#[inline(always)]
pub(crate) fn exact_colours(bytes: &[u8]) -> [u32; 16]
    requires { length bytes.now ≡ 64 }
    ensures colours { result ≡ row_colours Exact 16 bytes.now }
    ensures small { AllByRecursion (λ n. n < 2 ^ 24) result }
    ensures sized { length result ≡ 16 }
{
    let words = u32x16::from_le_bytes(u8x64::from_slice(bytes));
    (words << u32x16::splat(8) >> u32x16::splat(8)).to_array()
}

/// The colours of the lossy bytes of a block, as numbers.
#[inline(always)]
pub(crate) fn lossy_colours(bytes: &[u8]) -> [u32; 16]
    requires { length bytes.now ≡ 32 }
    ensures colours { result ≡ row_colours Lossy 16 bytes.now }
    ensures small { AllByRecursion (λ n. n < 2 ^ 24) result }
    ensures sized { length result ≡ 16 }
{
    let lossy = u16x16::from_le_bytes(u8x32::from_slice(bytes)).cast::<u32>();
    let red = lossy >> u32x16::splat(11);
    let green = lossy << u32x16::splat(21) >> u32x16::splat(26);
    let blue = lossy << u32x16::splat(27) >> u32x16::splat(27);
    let red = (red << u32x16::splat(3)) + (red >> u32x16::splat(2));
    let green = (green << u32x16::splat(2)) + (green >> u32x16::splat(4));
    let blue = (blue << u32x16::splat(3)) + (blue >> u32x16::splat(2));
    ((red << u32x16::splat(16)) + (green << u32x16::splat(8)) + blue).to_array()
}

/// The numbers of a block's pixels.
#[inline(always)]
pub(crate) fn numbers_of(pixels: &[Pixel]) -> [u32; 16]
    requires { length pixels.now ≡ 16 }
    ensures same { result ≡ pixels.now }
    ensures sized { length result ≡ 16 }
    ensures small { AllByRecursion (λ n. n < 2 ^ 24) result }
{
    let mut numbers = [0; LANES];
    for i in 0..LANES {
        numbers[i] = pixels[i].get();
    }
    numbers
}

/// The pixels of a block's numbers.
#[inline(always)]
pub(crate) fn pixels_of(numbers: [u32; 16]) -> [Pixel; 16]
    requires sized { length numbers ≡ 16 }
    requires small { AllByRecursion (λ n. n < 2 ^ 24) numbers }
    ensures { result ≡ numbers }
{
    let mut pixels = [Pixel::BLACK; LANES];
    for i in 0..LANES {
        pixels[i] = match Pixel::new(numbers[i]) {
            Some(pixel) => pixel,
            None => unreachable!(),
        };
    }
    pixels
}
