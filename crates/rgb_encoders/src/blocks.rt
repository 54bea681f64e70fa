// Bodies of both codings by blocks of 16 pixels, with a plain loop for the rest. They keep the plain bodies' clauses, and
// write each byte and each pixel once.
ghost use Rattle.std.specs.Prelude.{◌≡◌, ◌≤◌, ◌<◌, ◌++◌, ◌*◌, ◌%◌, ◌^◌, length, IfOk, OnOk};
ghost use Rattle.std.specs.List.{AllByRecursion};
ghost use Rattle.rgb_encoders.specs.PixelBytes.{pixel_size, pixel_bytes, coded_bytes};
ghost use Rattle.rgb_encoders.specs.Decoded.{decoded, HoldsPixels};
ghost use Rattle.rgb_encoders.specs.Rows.{row_colours};

use crate::lanes::{
    LANES, exact_bytes, exact_colours, lossy_bytes, lossy_colours, numbers_of, pixels_of,
};
use crate::plain::{lossy_number, read_pixel};
use crate::sizes::pixel_size;
use std::alloc::Global;
use xp_base::{Coding, NoMemory, Pixel};

/// The bytes of at most 4,096 times 4,096 pixels.
pub(crate) fn block_encoding(
    alloc: Global,
    coding: Coding,
    pixels: &[Pixel],
) -> Result<Vec<u8>, NoMemory>
    requires { length pixels.now ≤ 4096 * 4096 }
    ensures { IfOk result (λ bytes. bytes.items ≡ coded_bytes coding pixels.now) }
{
    let mut bytes = Vec::with_capacity(alloc, pixels.len() * pixel_size(coding) as usize)?;
    let whole = pixels.len() / LANES * LANES;
    push_blocks(coding, &pixels[..whole], &mut bytes)?;
    push_pixels(coding, &pixels[whole..], &mut bytes)?;
    Ok(bytes)
}

/// Adds the bytes of whole blocks.
fn push_blocks(coding: Coding, pixels: &[Pixel], bytes: &mut Vec<u8>) -> Result<(), NoMemory>
    requires { length pixels.now % 16 ≡ 0 }
    ensures { OnOk result (bytes.new.items ≡ bytes.old.items ++ coded_bytes coding pixels.now) }
{
    for block in 0..pixels.len() / LANES {
        let at = block * LANES;
        push_block(coding, numbers_of(&pixels[at..at + LANES]), bytes)?;
    }
    Ok(())
}

#[inline(always)]
fn push_block(coding: Coding, numbers: [u32; 16], bytes: &mut Vec<u8>) -> Result<(), NoMemory>
    requires sized { length numbers ≡ 16 }
    requires small { AllByRecursion (λ n. n < 2 ^ 24) numbers }
    ensures { OnOk result (bytes.new.items ≡ bytes.old.items ++ coded_bytes coding numbers) }
{
    match coding {
        Coding::Exact => bytes.extend_from_slice(&exact_bytes(numbers))?,
        Coding::Lossy => bytes.extend_from_slice(&lossy_bytes(numbers))?,
    }
    Ok(())
}

/// Adds the bytes of pixels, one by one.
fn push_pixels(coding: Coding, pixels: &[Pixel], bytes: &mut Vec<u8>) -> Result<(), NoMemory>
    ensures { OnOk result (bytes.new.items ≡ bytes.old.items ++ coded_bytes coding pixels.now) }
{
    for i in 0..pixels.len() {
        push_pixel(coding, pixels[i], bytes)?;
    }
    Ok(())
}

#[inline(always)]
fn push_pixel(coding: Coding, pixel: Pixel, bytes: &mut Vec<u8>) -> Result<(), NoMemory>
    ensures { OnOk result (bytes.new.items ≡ bytes.old.items ++ pixel_bytes coding pixel) }
{
    match coding {
        Coding::Exact => bytes.extend_from_slice(&(pixel.get() + 0xff00_0000).to_le_bytes())?,
        Coding::Lossy => bytes.extend_from_slice(&(lossy_number(pixel) as u16).to_le_bytes())?,
    }
    Ok(())
}

/// The pixels of `w` columns and `h` rows, each row `stride` bytes after the row above.
pub(crate) fn block_decoding(
    alloc: Global,
    coding: Coding,
    w: u32,
    h: u32,
    stride: u32,
    bytes: &[u8],
) -> Result<Vec<Pixel>, NoMemory>
    requires wide { w ≤ 4096 }
    requires high { h ≤ 4096 }
    requires holds { HoldsPixels coding w h stride bytes.now }
    ensures { IfOk result (λ pixels. pixels.items ≡ decoded coding w h stride bytes.now) }
{
    let mut pixels = Vec::with_capacity(alloc, (w * h) as usize)?;
    let count = w as usize;
    for y in 0..h {
        let at = y as usize * stride as usize;
        push_row(coding, count, &bytes[at..at + stride as usize], &mut pixels)?;
    }
    Ok(pixels)
}

/// Adds the pixels that a row's bytes begin with.
fn push_row(
    coding: Coding,
    count: usize,
    row: &[u8],
    pixels: &mut Vec<Pixel>,
) -> Result<(), NoMemory>
    requires wide { count ≤ 4096 }
    requires holds { count * pixel_size coding ≤ length row.now }
    ensures { OnOk result (pixels.new.items ≡ pixels.old.items ++ row_colours coding count row.now) }
{
    let whole = count / LANES * LANES;
    let size = pixel_size(coding) as usize;
    push_row_blocks(coding, count / LANES, row, pixels)?;
    push_row_pixels(coding, count - whole, &row[whole * size..], pixels)?;
    Ok(())
}

/// Adds the pixels of so many blocks that a row's bytes begin with.
fn push_row_blocks(
    coding: Coding,
    count: usize,
    row: &[u8],
    pixels: &mut Vec<Pixel>,
) -> Result<(), NoMemory>
    requires wide { count ≤ 256 }
    requires holds { count * 16 * pixel_size coding ≤ length row.now }
    ensures { OnOk result (pixels.new.items ≡ pixels.old.items ++ row_colours coding (count * 16) row.now) }
{
    let size = LANES * pixel_size(coding) as usize;
    for block in 0..count {
        let at = block * size;
        push_colours(coding, &row[at..at + size], pixels)?;
    }
    Ok(())
}

#[inline(always)]
fn push_colours(coding: Coding, bytes: &[u8], pixels: &mut Vec<Pixel>) -> Result<(), NoMemory>
    requires { length bytes.now ≡ 16 * pixel_size coding }
    ensures { OnOk result (pixels.new.items ≡ pixels.old.items ++ row_colours coding 16 bytes.now) }
{
    match coding {
        Coding::Exact => pixels.extend_from_slice(&pixels_of(exact_colours(bytes)))?,
        Coding::Lossy => pixels.extend_from_slice(&pixels_of(lossy_colours(bytes)))?,
    }
    Ok(())
}

/// Adds so many pixels that a row's bytes begin with, one by one.
fn push_row_pixels(
    coding: Coding,
    count: usize,
    row: &[u8],
    pixels: &mut Vec<Pixel>,
) -> Result<(), NoMemory>
    requires wide { count ≤ 4096 }
    requires holds { count * pixel_size coding ≤ length row.now }
    ensures { OnOk result (pixels.new.items ≡ pixels.old.items ++ row_colours coding count row.now) }
{
    let size = pixel_size(coding) as usize;
    for x in 0..count {
        pixels.push(read_pixel(coding, row, x * size))?;
    }
    Ok(())
}
