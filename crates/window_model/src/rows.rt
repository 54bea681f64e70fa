// Pixels in rows of a window, one run of a row at a time.
ghost use Rattle.std.specs.Prelude.{◌≡◌, ◌≤◌, ◌<◌, ◌+◌, ◌-◌, ◌*◌, ◌^◌, ℕ, ◌&&◌, nat_le, nat_lt, if◌then◌else◌, length, slice_index, All, IfOk};
ghost use Rattle.xp_base.specs.Points.{LiesIn, area};
ghost use Rattle.window_model.specs.Drawing.{blank, filled, placed, cropped, resized};
ghost use Rattle.window_model.specs.Desktop.{IsSide};

use std::alloc::Global;
use xp_base::{NoMemory, Pixel, Rect};

pub fn blank_pixels(alloc: Global, wide: u32, high: u32) -> Result<Vec<Pixel>, NoMemory>
    requires wide { IsSide wide }
    requires high { IsSide high }
    ensures { IfOk result (λ pixels. pixels.items ≡ blank wide high) }
{
    Ok(vec![in alloc; Pixel::BLACK; (wide * high) as usize]?)
}

/// That each of these is a pixel's number, as a fact for proofs.
pub fn see_colours(pixels: &[Pixel])
    ensures { All (λ n. n < 2 ^ 24) pixels.now }
{
    for pixel in pixels {
        let _number = pixel.get();
    }
}

pub fn fill_rows(pixels: &mut Vec<Pixel>, wide: u32, high: u32, r: Rect, colour: Pixel)
    requires wide { IsSide wide }
    requires high { IsSide high }
    requires sized { length pixels.old.items ≡ wide * high }
    requires inside { LiesIn wide high r }
    ensures { pixels.new.items ≡ filled wide r colour pixels.old.items }
{
    for row in 0..r.h {
        let start = (r.y + row) * wide + r.x;
        fill_run(pixels, start as usize, r.w as usize, colour);
    }
}

fn fill_run(pixels: &mut Vec<Pixel>, start: usize, count: usize, colour: Pixel)
    requires { start + count ≤ length pixels.old.items }
    ensures sized { length pixels.new.items ≡ length pixels.old.items }
    ensures run { (k : ℕ) → slice_index pixels.new.items k
        ≡ (if nat_le start k && nat_lt k (start + count) then colour else slice_index pixels.old.items k) }
{
    for i in 0..count {
        pixels[start + i] = colour;
    }
}

/// The numbers, row by row, go into the rectangle.
pub fn copy_rows(pixels: &mut Vec<Pixel>, wide: u32, high: u32, r: Rect, numbers: &[Pixel])
    requires wide { IsSide wide }
    requires high { IsSide high }
    requires sized { length pixels.old.items ≡ wide * high }
    requires inside { LiesIn wide high r }
    requires full { length numbers.now ≡ area r }
    ensures { pixels.new.items ≡ placed wide r numbers.now pixels.old.items }
{
    for row in 0..r.h {
        let start = (r.y + row) * wide + r.x;
        let from = row * r.w;
        copy_run(pixels, start as usize, numbers, from as usize, r.w as usize);
    }
}

fn copy_run(pixels: &mut Vec<Pixel>, start: usize, numbers: &[Pixel], from: usize, count: usize)
    requires room { start + count ≤ length pixels.old.items }
    requires enough { from + count ≤ length numbers.now }
    ensures sized { length pixels.new.items ≡ length pixels.old.items }
    ensures run { (k : ℕ) → slice_index pixels.new.items k
        ≡ (if nat_le start k && nat_lt k (start + count) then slice_index numbers.now (from + (k - start)) else slice_index pixels.old.items k) }
{
    for i in 0..count {
        pixels[start + i] = numbers[from + i];
    }
}

pub fn crop_rows(
    alloc: Global,
    pixels: &[Pixel],
    wide: u32,
    high: u32,
    r: Rect,
) -> Result<Vec<Pixel>, NoMemory>
    requires wide { IsSide wide }
    requires high { IsSide high }
    requires sized { length pixels.now ≡ wide * high }
    requires inside { LiesIn wide high r }
    ensures { IfOk result (λ numbers. numbers.items ≡ cropped wide r pixels.now) }
{
    let mut numbers = Vec::with_capacity(alloc, r.area() as usize)?;
    for row in 0..r.h {
        let start = ((r.y + row) * wide + r.x) as usize;
        numbers.extend_from_slice(&pixels[start..start + r.w as usize])?;
    }
    Ok(numbers)
}

/// The pixels of a window that gets another size: the rows of both sizes, as far as both are wide, and all else 0.
pub fn resize_rows(
    alloc: Global,
    pixels: &[Pixel],
    wide_before: u32,
    high_before: u32,
    wide: u32,
    high: u32,
) -> Result<Vec<Pixel>, NoMemory>
    requires wide_before { IsSide wide_before }
    requires high_before { IsSide high_before }
    requires wide { IsSide wide }
    requires high { IsSide high }
    requires sized { length pixels.now ≡ wide_before * high_before }
    ensures { IfOk result (λ made. made.items ≡ resized wide_before high_before wide high pixels.now) }
{
    let mut resized = blank_pixels(alloc, wide, high)?;
    let count = wide.min(wide_before) as usize;
    for row in 0..high.min(high_before) {
        let start = (row * wide) as usize;
        let from = (row * wide_before) as usize;
        copy_run(&mut resized, start, pixels, from, count);
    }
    Ok(resized)
}
