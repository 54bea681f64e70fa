// What may be wrong with a well-formed line after others.
ghost use Rattle.std.specs.Prelude.{◌≡◌, ◌+◌, ◌*◌, ◌≤◌, ◌==◌, if◌then◌else◌, min, length};
ghost use Rattle.paint_script.specs.Faults.{find_open, is_open, lacks_window, holds, leaves_window, is_one_too_many, pixels_of, with_size, with_resized, is_too_large, paint_fault, peer_named, peer_fault};

use crate::opening::Opening;
use link_bay::Order;
use script_lines::{Paint, Why};
use xp_base::{Conn, Wid};

/// How many windows there may be at once.
const MOST_WINDOWS: usize = 32;

/// How many pixels all windows may have.
const MOST_PIXELS: u64 = 4_194_304;

/// The open window with this number.
pub fn find_open(windows: &[Opening], wid: Wid) -> Option<Opening>
    ensures { result ≡ find_open windows.now wid }
{
    windows.iter().copied().find(|o| o.wid.get() == wid.get())
}

fn is_open(windows: &[Opening], wid: Wid) -> bool
    ensures { result ≡ is_open windows.now wid }
{
    find_open(windows, wid).is_some()
}

fn lacks_window(windows: &[Opening], paint: &Paint) -> bool
    ensures { result ≡ lacks_window windows.now paint.now }
{
    match paint {
        Paint::Open { .. } => false,
        Paint::Close { wid }
        | Paint::Fill { wid, .. }
        | Paint::Copy { wid, .. }
        | Paint::Noise { wid, .. }
        | Paint::Resize { wid, .. }
        | Paint::Move { wid, .. }
        | Paint::Raise { wid } => !is_open(windows, *wid),
    }
}

/// Whether the rectangle lies in the window.
fn holds(window: Option<Opening>, x: u32, y: u32, w: u32, h: u32) -> bool
    ensures { result ≡ holds window x y w h }
{
    let Some(window) = window else {
        return false;
    };
    u64::from(x) + u64::from(w) <= u64::from(window.w)
        && u64::from(y) + u64::from(h) <= u64::from(window.h)
}

fn leaves_window(windows: &[Opening], paint: &Paint) -> bool
    ensures { result ≡ leaves_window windows.now paint.now }
{
    match paint {
        Paint::Fill {
            wid,
            x,
            y,
            w,
            h,
            ..
        }
        | Paint::Noise {
            wid,
            x,
            y,
            w,
            h,
            ..
        } => !holds(find_open(windows, *wid), *x, *y, *w, *h),
        Paint::Copy {
            wid,
            x,
            y,
            w,
            h,
            tx,
            ty,
        } => {
            let window = find_open(windows, *wid);
            !(holds(window, *x, *y, *w, *h) && holds(window, *tx, *ty, *w, *h))
        }
        Paint::Open { .. }
        | Paint::Close { .. }
        | Paint::Resize { .. }
        | Paint::Move { .. }
        | Paint::Raise { .. } => false,
    }
}

fn is_one_too_many(windows: &[Opening], paint: &Paint) -> bool
    ensures { result ≡ is_one_too_many windows.now paint.now }
{
    match paint {
        Paint::Open { .. } => windows.len() >= MOST_WINDOWS,
        _ => false,
    }
}

/// These pixels and those of a size, counted up to one more than there may be.
fn add_pixels(pixels: u64, w: u32, h: u32) -> u64
    requires { pixels ≤ 4194305 }
    ensures { result ≡ min (pixels + w * h) 4194305 }
{
    let sum = pixels + u64::from(w) * u64::from(h);
    sum.min(MOST_PIXELS + 1)
}

/// How many pixels the windows have, counted up to one more than there may be.
fn pixels_of(windows: &[Opening]) -> u64
    ensures { result ≡ min (pixels_of windows.now) 4194305 }
{
    let mut pixels = 0;
    for o in windows {
        pixels = add_pixels(pixels, o.w, o.h);
    }
    pixels
}

/// The same where the window of this number has another size.
fn pixels_with(windows: &[Opening], wid: Wid, w: u32, h: u32) -> u64
    ensures { result ≡ min (pixels_of (with_resized windows.now wid w h)) 4194305 }
{
    let mut pixels = 0;
    for o in windows {
        let o = resized(*o, wid, w, h);
        pixels = add_pixels(pixels, o.w, o.h);
    }
    pixels
}

/// A window, with another size if it has this number.
pub fn resized(o: Opening, wid: Wid, w: u32, h: u32) -> Opening
    ensures { result ≡ (if o.wid == wid then with_size w h o else o) }
{
    if o.wid.get() == wid.get() {
        Opening { wid: o.wid, w, h }
    } else {
        o
    }
}

fn is_too_large(windows: &[Opening], paint: &Paint) -> bool
    ensures { result ≡ is_too_large windows.now paint.now }
{
    match paint {
        Paint::Open { w, h, .. } => add_pixels(pixels_of(windows), *w, *h) > MOST_PIXELS,
        Paint::Resize { wid, w, h } => pixels_with(windows, *wid, *w, *h) > MOST_PIXELS,
        _ => false,
    }
}

/// The fault of a paint line among these windows; `again` tells that it opens a number again.
pub fn paint_fault(windows: &[Opening], again: bool, paint: &Paint) -> Option<Why>
    ensures { result ≡ paint_fault windows.now again paint.now }
{
    if lacks_window(windows, paint) {
        Some(Why::NoWindow)
    } else if again {
        Some(Why::Reused)
    } else if leaves_window(windows, paint) {
        Some(Why::Outside)
    } else if is_one_too_many(windows, paint) {
        Some(Why::Windows)
    } else if is_too_large(windows, paint) {
        Some(Why::Pixels)
    } else {
        None
    }
}

fn peer_named(joined: usize, k: Conn) -> Option<Why>
    ensures { result ≡ peer_named joined k.0 }
{
    if k.0 as usize >= joined {
        return Some(Why::NoPeer);
    }
    None
}

/// The fault of an order after so many peers.
pub fn peer_fault(joined: usize, order: &Order) -> Option<Why>
    ensures { result ≡ peer_fault joined order.now }
{
    match order {
        Order::Join(..) => None,
        Order::Map(k, _)
        | Order::Unmap(k, _)
        | Order::Refresh(k, _)
        | Order::Leave(k)
        | Order::Say(k, _) => peer_named(joined, *k),
    }
}
