// Windows of a few pixels, worked by hand.
use std::alloc::Global;
use std::process::Abort;
use std::test::Fail;
use window_model::{Desk, Generator, Geometry, Win, noise_pixels};
use xp_base::{Pixel, Pixels, Rect, Wid};

fn rectangle(x: u32, y: u32, w: u32, h: u32) -> Result<Rect, Fail> {
    Ok(Rect::new(x, y, w, h).ok_or("the rectangle is wrong")?)
}

fn window_number(n: i64) -> Result<Wid, Fail> {
    Ok(Wid::new(n).ok_or("the number is wrong")?)
}

fn pixels_of(alloc: Global, numbers: &[u32]) -> Result<Pixels, Fail> {
    let mut items = Vec::new(alloc);
    for number in numbers {
        items.push(Pixel::new(*number).ok_or("a pixel's number")?)?;
    }
    Ok(Pixels::new(items))
}

fn open(desk: &mut Desk, wid: Wid, x: i32, y: i32, w: u32, h: u32) -> Result<(), Fail> {
    if desk.find(wid).is_some() {
        return Err(Fail::from("the window is there"));
    }
    if w < 1
        || w > 4096
        || h < 1
        || h > 4096
        || x < -32768
        || x > 32767
        || y < -32768
        || y > 32767
    {
        return Err(Fail::from("no size or place of a window"));
    }
    desk.add(wid, x, y, w, h)?;
    Ok(())
}

fn fill(desk: &mut Desk, wid: Wid, r: Rect, colour: u32) -> Result<(), Fail> {
    let window = desk.find(wid).ok_or("no window")?;
    if !r.lies_in(window.w, window.h) {
        return Err(Fail::from("the rectangle is outside"));
    }
    desk.fill(wid, r, Pixel::new(colour).ok_or("a pixel's number")?);
    Ok(())
}

fn put(desk: &mut Desk, alloc: Global, wid: Wid, r: Rect, numbers: &[u32]) -> Result<(), Fail> {
    let window = desk.find(wid).ok_or("no window")?;
    if !r.lies_in(window.w, window.h) {
        return Err(Fail::from("the rectangle is outside"));
    }
    let pixels = pixels_of(alloc, numbers)?;
    if pixels.as_slice().len() != r.area() as usize {
        return Err(Fail::from("as many pixels as the rectangle has"));
    }
    desk.put(wid, r, &pixels);
    Ok(())
}

fn crop(desk: &Desk, alloc: Global, wid: Wid, r: Rect) -> Result<Pixels, Fail> {
    let window = desk.find(wid).ok_or("no window")?;
    if !r.lies_in(window.w, window.h) {
        return Err(Fail::from("the rectangle is outside"));
    }
    Ok(desk.crop(alloc, wid, r)?)
}

fn expect_pixels(rt: &impl Abort, found: &Pixels, wanted: &[u32]) {
    assert_eq!(rt; found.as_slice().len(), wanted.len());
    for (place, (pixel, number)) in found.as_slice().iter().zip(wanted).enumerate() {
        assert_eq!(rt; pixel.get(), *number, "at {place}");
    }
}

fn expect_window(rt: &impl Abort, found: &Win, wanted: (u16, i32, i32, u32, u32), pixels: &[u32]) {
    let wid = found.wid;
    assert_eq!(rt; (wid.get(), found.x, found.y, found.w, found.h), wanted);
    expect_pixels(rt, &found.pixels, pixels);
}

#[test]
fn draws_in_a_window_of_four_by_three(rt: HostRuntime) -> Result<(), Fail> {
    let alloc = rt.alloc();
    let wid = window_number(7)?;
    let mut desk = Desk::new(alloc);
    assert!(rt; desk.is_empty());
    open(&mut desk, wid, -5, 9, 4, 3)?;
    assert_eq!(rt; desk.len(), 1);
    let opened = desk.find(wid).ok_or("no window")?;
    expect_pixels(&rt, &opened.pixels, &[0, 0, 0, 0, 0, 0, 0, 0, 0, 0, 0, 0]);
    fill(&mut desk, wid, rectangle(2, 1, 2, 2)?, 255)?;
    let filled = desk.find(wid).ok_or("no window")?;
    expect_pixels(
        &rt,
        &filled.pixels,
        &[0, 0, 0, 0, 0, 0, 255, 255, 0, 0, 255, 255],
    );
    put(
        &mut desk,
        alloc,
        wid,
        rectangle(0, 0, 3, 2)?,
        &[1, 2, 3, 4, 5, 6],
    )?;
    let drawn = desk.find(wid).ok_or("no window")?;
    expect_pixels(
        &rt,
        &drawn.pixels,
        &[1, 2, 3, 0, 4, 5, 6, 255, 0, 0, 255, 255],
    );
    expect_pixels(
        &rt,
        &crop(&desk, alloc, wid, rectangle(2, 0, 2, 3)?)?,
        &[3, 0, 6, 255, 255, 255],
    );
    expect_pixels(
        &rt,
        &crop(&desk, alloc, wid, rectangle(1, 0, 1, 3)?)?,
        &[2, 5, 0],
    );
    Ok(())
}

#[test]
fn keeps_windows_from_bottom_to_top(rt: HostRuntime) -> Result<(), Fail> {
    let alloc = rt.alloc();
    let mut desk = Desk::new(alloc);
    open(&mut desk, window_number(9)?, 0, 0, 1, 2)?;
    open(&mut desk, window_number(3)?, -32768, 32767, 2, 1)?;
    fill(
        &mut desk,
        window_number(3)?,
        rectangle(1, 0, 1, 1)?,
        0xff0000,
    )?;
    let windows = desk.as_slice();
    assert_eq!(rt; windows.len(), 2);
    expect_window(&rt, &windows[0], (9, 0, 0, 1, 2), &[0, 0]);
    expect_window(&rt, &windows[1], (3, -32768, 32767, 2, 1), &[0, 0xff0000]);
    assert_eq!(rt; windows[0].area(), 2);
    assert!(rt; desk.find(window_number(4)?).is_none());
    Ok(())
}

/// A desktop with the window 7 of 4 by 3 pixels, that show 1 to 12, and the window 9 of one pixel on top.
fn two_windows(alloc: Global) -> Result<Desk, Fail> {
    let wid = window_number(7)?;
    let mut desk = Desk::new(alloc);
    open(&mut desk, wid, -5, 9, 4, 3)?;
    open(&mut desk, window_number(9)?, 0, 0, 1, 1)?;
    put(
        &mut desk,
        alloc,
        wid,
        rectangle(0, 0, 4, 3)?,
        &[1, 2, 3, 4, 5, 6, 7, 8, 9, 10, 11, 12],
    )?;
    Ok(desk)
}

fn copy(desk: &mut Desk, wid: Wid, r: Rect, x: u32, y: u32) -> Result<(), Fail> {
    let window = desk.find(wid).ok_or("no window")?;
    let target = Rect::new(x, y, r.w, r.h).ok_or("the rectangle is wrong")?;
    if !r.lies_in(window.w, window.h) || !target.lies_in(window.w, window.h) {
        return Err(Fail::from("the rectangle is outside"));
    }
    desk.copy(wid, r, x, y)?;
    Ok(())
}

/// A rectangle, a place that it is copied to, and what the window shows then.
struct Copied {
    from: (u32, u32, u32, u32),
    to: (u32, u32),
    shows: [u32; 12],
}

const COPIES: &[Copied] = &[
    Copied {
        from: (0, 0, 3, 2),
        to: (1, 0),
        shows: [1, 1, 2, 3, 5, 5, 6, 7, 9, 10, 11, 12],
    },
    Copied {
        from: (0, 0, 3, 2),
        to: (0, 1),
        shows: [1, 2, 3, 4, 1, 2, 3, 8, 5, 6, 7, 12],
    },
    Copied {
        from: (0, 0, 3, 2),
        to: (1, 1),
        shows: [1, 2, 3, 4, 5, 1, 2, 3, 9, 5, 6, 7],
    },
    Copied {
        from: (1, 1, 3, 2),
        to: (0, 0),
        shows: [6, 7, 8, 4, 10, 11, 12, 8, 9, 10, 11, 12],
    },
];

#[test]
fn copies_a_rectangle_over_itself_as_it_was(rt: HostRuntime) -> Result<(), Fail> {
    let alloc = rt.alloc();
    let wid = window_number(7)?;
    for case in COPIES {
        let mut desk = two_windows(alloc)?;
        let (x, y, w, h) = case.from;
        copy(&mut desk, wid, rectangle(x, y, w, h)?, case.to.0, case.to.1)?;
        let window = desk.find(wid).ok_or("no window")?;
        expect_window(&rt, window, (7, -5, 9, 4, 3), &case.shows);
    }
    Ok(())
}

fn resize(desk: &mut Desk, wid: Wid, w: u32, h: u32) -> Result<(), Fail> {
    if desk.find(wid).is_none() || w < 1 || w > 4096 || h < 1 || h > 4096 {
        return Err(Fail::from("no window, or no size"));
    }
    desk.resize(wid, w, h)?;
    Ok(())
}

#[test]
fn keeps_the_overlap_where_a_window_is_resized(rt: HostRuntime) -> Result<(), Fail> {
    let alloc = rt.alloc();
    let wid = window_number(7)?;
    let mut desk = two_windows(alloc)?;
    resize(&mut desk, wid, 2, 4)?;
    let higher = desk.find(wid).ok_or("no window")?;
    expect_window(&rt, higher, (7, -5, 9, 2, 4), &[1, 2, 5, 6, 9, 10, 0, 0]);
    resize(&mut desk, wid, 3, 2)?;
    let wider = desk.find(wid).ok_or("no window")?;
    expect_window(&rt, wider, (7, -5, 9, 3, 2), &[1, 2, 0, 5, 6, 0]);
    Ok(())
}

fn number_of(window: &Win) -> u16 {
    let wid = window.wid;
    wid.get()
}

#[test]
fn moves_raises_and_closes_windows(rt: HostRuntime) -> Result<(), Fail> {
    let alloc = rt.alloc();
    let mut desk = two_windows(alloc)?;
    let lower = window_number(7)?;
    let upper = window_number(9)?;
    if desk.find(lower).is_some() {
        desk.raise(lower);
    }
    let windows = desk.as_slice();
    assert_eq!(rt; windows.len(), 2);
    assert_eq!(rt; (number_of(&windows[0]), number_of(&windows[1])), (9, 7));
    if desk.find(upper).is_some() {
        desk.place(upper, -32768, 32767);
    }
    let moved = desk.find(upper).ok_or("no window")?;
    expect_window(&rt, moved, (9, -32768, 32767, 1, 1), &[0]);
    if desk.find(upper).is_some() {
        desk.remove(upper);
    }
    assert_eq!(rt; desk.len(), 1);
    assert!(rt; desk.find(upper).is_none());
    assert!(rt; desk.find(lower).is_some());
    Ok(())
}

/// A seed and its first numbers, worked by hand from the rule: multiplied by 6364136223846793005, and 1442695040888963407
/// added, modulo 2^64; of that the upper 31 bits.
const NUMBERS: &[(u32, [u32; 3])] = &[
    (0, [167_951_807, 218_396_424, 1_299_921_937]),
    (1, [908_834_774, 1_093_944_153, 1_392_341_196]),
    (255, [114_547_279, 144_767_928, 1_244_512_974]),
    (u32::MAX, [69_501_759, 1_503_429_036, 1_091_279_824]),
];

#[test]
fn generates_the_numbers_of_the_rule(rt: HostRuntime) -> Result<(), Fail> {
    let alloc = rt.alloc();
    for (seed, numbers) in NUMBERS {
        let mut generator = Generator::new(u64::from(*seed));
        let pixels = noise_pixels(alloc, *seed, 3)?;
        for (number, pixel) in numbers.iter().zip(pixels.as_slice()) {
            assert_eq!(rt; generator.next(), *number);
            assert_eq!(rt; pixel.get(), *number % (1 << 24));
        }
        assert_eq!(rt; pixels.as_slice().len(), 3);
    }
    Ok(())
}

#[test]
fn fills_a_rectangle_with_noise_row_by_row(rt: HostRuntime) -> Result<(), Fail> {
    let alloc = rt.alloc();
    let wid = window_number(7)?;
    let r = rectangle(1, 1, 2, 2)?;
    let mut desk = two_windows(alloc)?;
    let window = desk.find(wid).ok_or("no window")?;
    if !r.lies_in(window.w, window.h) {
        return Err(Fail::from("the rectangle is outside"));
    }
    desk.noise(wid, r, 0)?;
    let noised = desk.find(wid).ok_or("no window")?;
    expect_window(
        &rt,
        noised,
        (7, -5, 9, 4, 3),
        &[
            1, 2, 3, 4, 5, 179_647, 292_616, 8, 9, 8_076_305, 5_967_220, 12,
        ],
    );
    let geometry = Geometry::of(noised);
    assert!(rt; geometry.wid == wid);
    assert_eq!(rt;
        (geometry.x, geometry.y, geometry.w, geometry.h),
        (-5, 9, 4, 3)
    );
    assert_eq!(rt; geometry.area(), 12);
    assert!(rt; Geometry::new(wid, -5, 9, 4, 3) == geometry);
    Ok(())
}
