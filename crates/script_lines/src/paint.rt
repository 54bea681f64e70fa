// Paint lines.
use xp_base::{Pixel, Wid};

/// A line that changes the desktop. Places and sizes are in pixels; a rectangle's place is that of its
/// top left corner in the window.
#[derive(Clone, Copy, Debug, PartialEq, Eq)]
pub enum Paint {
    /// A new window on top, all pixels 0. Its place is that of its top left corner on the desktop.
    Open {
        wid: Wid,
        x: i32,
        y: i32,
        w: u32,
        h: u32,
    },
    /// The window goes.
    Close {
        wid: Wid,
    },
    /// A rectangle of the window gets the colour.
    Fill {
        wid: Wid,
        x: u32,
        y: u32,
        w: u32,
        h: u32,
        c: Pixel,
    },
    /// The rectangle's pixels, as they were, stand at `tx` `ty` too.
    Copy {
        wid: Wid,
        x: u32,
        y: u32,
        w: u32,
        h: u32,
        tx: u32,
        ty: u32,
    },
    /// The rectangle gets numbers of the generator that starts with `seed`.
    Noise {
        wid: Wid,
        x: u32,
        y: u32,
        w: u32,
        h: u32,
        seed: u32,
    },
    /// The window has this size: the overlap stays, and new pixels are 0.
    Resize {
        wid: Wid,
        w: u32,
        h: u32,
    },
    /// The window has this place on the desktop.
    Move {
        wid: Wid,
        x: i32,
        y: i32,
    },
    /// The window goes on top.
    Raise {
        wid: Wid,
    },
}
