// Rectangles, windows and texts for tests.
use std::alloc::Global;
use std::fmt::Write;
use std::test::Fail;
use window_model::Desk;
use xp_base::{Capture, Coding, Pixel, Pixels, Rect, Wid};

pub fn rectangle(x: u32, y: u32, w: u32, h: u32) -> Result<Rect, Fail> {
    Ok(Rect::new(x, y, w, h).ok_or("a rectangle")?)
}

pub fn window(number: i64) -> Result<Wid, Fail> {
    Ok(Wid::new(number).ok_or("a window's number")?)
}

/// Pixels with the numbers from this one on.
fn numbered(alloc: Global, first: u32, count: u32) -> Result<Pixels, Fail> {
    let mut items = Vec::new(alloc);
    for number in 0..count {
        let sum = first.checked_add(number).ok_or("a number")?;
        items.push(Pixel::new(sum).ok_or("a pixel's number")?)?;
    }
    Ok(Pixels::new(items))
}

/// A desktop with one window of this size, whose pixels have the numbers from `first` on, row by row.
pub fn desktop(alloc: Global, wid: Wid, w: u32, h: u32, first: u32) -> Result<Desk, Fail> {
    let rect = rectangle(0, 0, w, h)?;
    let mut desk = Desk::new(alloc);
    if desk.find(wid).is_some() {
        return Err(Fail::from("no window yet"));
    }
    if w < 1 || w > 4096 || h < 1 || h > 4096 {
        return Err(Fail::from("a window's size"));
    }
    desk.add(wid, 0, 0, w, h)?;
    draw(&mut desk, alloc, wid, rect, first)?;
    Ok(desk)
}

/// Gives the pixels of a rectangle of the window the numbers from `first` on, row by row.
pub fn draw(desk: &mut Desk, alloc: Global, wid: Wid, rect: Rect, first: u32) -> Result<(), Fail> {
    let window = desk.find(wid).ok_or("no window")?;
    if !rect.lies_in(window.w, window.h) {
        return Err(Fail::from("the rectangle is outside"));
    }
    let pixels = numbered(alloc, first, rect.area())?;
    if pixels.as_slice().len() != rect.area() as usize {
        return Err(Fail::from("as many pixels as the rectangle has"));
    }
    desk.put(wid, rect, &pixels);
    Ok(())
}

/// Writes a rectangle and how it is coded.
pub fn tell_rectangle(out: &mut String, rect: Rect, coding: Coding) -> Result<(), Fail> {
    let (x, y, w, h) = (rect.x, rect.y, rect.w, rect.h);
    let coded = match coding {
        Coding::Exact => "exact",
        Coding::Lossy => "lossy",
    };
    write!(out, "{x} {y} {w} {h} {coded}")?;
    Ok(())
}

/// Writes a capture's rectangle, its coding and its pixels' numbers.
pub fn tell_capture(out: &mut String, capture: &Capture) -> Result<(), Fail> {
    tell_rectangle(out, capture.rect, capture.coding)?;
    out.push(':')?;
    for pixel in capture.pixels.as_slice() {
        let number = pixel.get();
        write!(out, " {number}")?;
    }
    Ok(())
}
