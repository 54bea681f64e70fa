// Where a window stands, and its size.
use window_model::Win;
use xp_base::Wid;

/// A window's number, its place on the desktop, and its size in pixels.
#[derive(Clone, Copy, Debug, PartialEq, Eq)]
pub struct Geometry {
    pub wid: Wid,
    pub x: i32,
    pub y: i32,
    pub w: u32,
    pub h: u32,
}

impl Geometry {
    ghost use Rattle.std.specs.Prelude.{◌≡◌};
    ghost use Rattle.client_connection.specs.Wire.{geometry_of};

    /// Of these numbers: place and size in pixels.
    pub fn new(wid: Wid, x: i32, y: i32, w: u32, h: u32) -> Geometry
        ensures { result ≡ record { wid = wid; x = x; y = y; w = w; h = h } }
    {
        Geometry { wid, x, y, w, h }
    }

    /// That of a window of the desktop.
    pub fn of(window: &Win) -> Geometry
        ensures { result ≡ geometry_of window.now }
    {
        Geometry {
            wid: window.wid,
            x: window.x,
            y: window.y,
            w: window.w,
            h: window.h,
        }
    }
}
