// Plain bodies of both codings, pixel by pixel. Faster ones keep their clauses and are compared with them.
ghost use Rattle.std.specs.Prelude.{◌≡◌, ◌≤◌, ◌<◌, ◌+◌, ◌*◌, length, IfOk};
ghost use Rattle.rgb_encoders.specs.Colour.{lossy_number, expansion, colour};
ghost use Rattle.rgb_encoders.specs.PixelBytes.{pixel_size, coded_bytes, colour_at};
ghost use Rattle.rgb_encoders.specs.Decoded.{decoded, HoldsPixels};

use crate::sizes::pixel_size;
use std::alloc::Global;
use xp_base::{Coding, NoMemory, Pixel};

/// The bytes of at most 4,096 times 4,096 pixels.
pub fn plain_encoding(alloc: Global, coding: Coding, pixels: &[Pixel]) -> Result<Vec<u8>, NoMemory>
    requires { length pixels.now ≤ 4096 * 4096 }
    ensures { IfOk result (λ bytes. bytes.items ≡ coded_bytes coding pixels.now) }
{
    let mut bytes = vec![in alloc; 0; pixels.len() * pixel_size(coding) as usize]?;
    match coding {
        Coding::Exact => write_exact(pixels, bytes.as_mut_slice()),
        Coding::Lossy => write_lossy(pixels, bytes.as_mut_slice()),
    }
    Ok(bytes)
}

fn write_exact(pixels: &[Pixel], bytes: &mut [u8])
    requires small { length pixels.now ≤ 4096 * 4096 }
    requires sized { length bytes.old ≡ length pixels.now * 4 }
    ensures { bytes.new ≡ coded_bytes Coding.Exact pixels.now }
{
    for i in 0..pixels.len() {
        let number = pixels[i].get();
        bytes[i * 4] = (number % 256) as u8;
        bytes[i * 4 + 1] = (number / 256 % 256) as u8;
        bytes[i * 4 + 2] = (number / 65536) as u8;
        bytes[i * 4 + 3] = 255;
    }
}

fn write_lossy(pixels: &[Pixel], bytes: &mut [u8])
    requires small { length pixels.now ≤ 4096 * 4096 }
    requires sized { length bytes.old ≡ length pixels.now * 2 }
    ensures { bytes.new ≡ coded_bytes Coding.Lossy pixels.now }
{
    for i in 0..pixels.len() {
        let number = lossy_number(pixels[i]);
        bytes[i * 2] = (number % 256) as u8;
        bytes[i * 2 + 1] = (number / 256) as u8;
    }
}

pub(crate) fn lossy_number(pixel: Pixel) -> u32
    ensures value { result ≡ lossy_number pixel }
    ensures small { result < 65536 }
{
    let number = pixel.get();
    let red = number / 65536;
    let green = number / 256 % 256;
    let blue = number % 256;
    red / 8 * 2048 + green / 4 * 32 + blue / 8
}

/// The pixels of `w` columns and `h` rows, each row `stride` bytes after the row above.
pub fn plain_decoding(
    alloc: Global,
    coding: Coding,
    w: u32,
    h: u32,
    stride: u32,
    bytes: &[u8],
) -> Result<Vec<Pixel>, NoMemory>
    requires wide { w ≤ 4096 }
    requires high { h ≤ 4096 }
    requires holds { HoldsPixels coding w h stride bytes.now }
    ensures { IfOk result (λ pixels. pixels.items ≡ decoded coding w h stride bytes.now) }
{
    let mut pixels = Vec::with_capacity(alloc, (w * h) as usize)?;
    let size = pixel_size(coding) as usize;
    for y in 0..h {
        let row = y as usize * stride as usize;
        for x in 0..w {
            pixels.push(read_pixel(coding, bytes, row + x as usize * size))?;
        }
    }
    Ok(pixels)
}

#[inline(always)]
pub(crate) fn read_pixel(coding: Coding, bytes: &[u8], place: usize) -> Pixel
    requires { place + pixel_size coding ≤ length bytes.now }
    ensures { result ≡ colour_at coding bytes.now place }
{
    match coding {
        Coding::Exact => colour(bytes[place + 2], bytes[place + 1], bytes[place]),
        Coding::Lossy => expansion(u32::from(bytes[place + 1]) * 256 + u32::from(bytes[place])),
    }
}

#[inline(always)]
fn colour(red: u8, green: u8, blue: u8) -> Pixel
    ensures { result ≡ colour red green blue }
{
    let number = u32::from(red) * 65536 + u32::from(green) * 256 + u32::from(blue);
    match Pixel::new(number) {
        Some(pixel) => pixel,
        None => unreachable!(),
    }
}

#[inline(always)]
fn expansion(number: u32) -> Pixel
    requires { number < 65536 }
    ensures { result ≡ expansion number }
{
    let red = number / 2048;
    let green = number / 32 % 64;
    let blue = number % 32;
    colour(
        (red * 8 + red / 4) as u8,
        (green * 4 + green / 16) as u8,
        (blue * 8 + blue / 4) as u8,
    )
}
