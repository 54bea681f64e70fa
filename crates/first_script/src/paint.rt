// Paint lines.
use xp_base::{Pixel, Wid};

/// A line that changes the desktop. Places and sizes are in pixels.
#[derive(Clone, Copy, Debug, PartialEq, Eq)]
pub enum Paint {
    /// A new window on top, all pixels 0. Its place is that of its top left corner on the desktop.
    Open {
        wid: Wid,
        x: i32,
        y: i32,
        w: u32,
        h: u32,
    },
    /// A rectangle of the window gets the colour.
    Fill {
        wid: Wid,
        x: u32,
        y: u32,
        w: u32,
        h: u32,
        c: Pixel,
    },
}
