// Where a window stands, and its size.
ghost use Rattle.std.specs.Prelude.{◌≡◌, ◌*◌};
ghost use Rattle.window_model.specs.Desktop.{IsSide, IsPlace};
ghost use Rattle.window_model.specs.Geometry.{IsGeometry, geometry_of};

use crate::window::Win;
use std::marker::Model;
use xp_base::Wid;

/// A window's number, the place of its top left corner on the desktop, -32,768 to 32,767, and its size in pixels, 1 to
/// 4,096.
#[derive(Clone, Copy, Debug, PartialEq, Eq)]
pub struct Geometry {
    pub wid: Wid,
    pub x: i32,
    pub y: i32,
    pub w: u32,
    pub h: u32,
}

impl Model for Geometry {
    ghost use Rattle.window_model.specs.Geometry.{Geometry as Numbers, IsGeometry};

    ghost Value = { Numbers };

    ghost view = { λ g. record { wid = g.wid; x = g.x; y = g.y; w = g.w; h = g.h } };

    ghost invariant = { λ g. IsGeometry (record { wid = g.wid; x = g.x; y = g.y; w = g.w; h = g.h }) };

    ghost inverse = { λ g. record { wid = g.wid; x = g.x; y = g.y; w = g.w; h = g.h } };
}

impl Geometry {
    pub fn new(wid: Wid, x: i32, y: i32, w: u32, h: u32) -> Geometry
        requires across { IsPlace x }
        requires down { IsPlace y }
        requires wide { IsSide w }
        requires high { IsSide h }
        ensures { result ≡ record { wid = wid; x = x; y = y; w = w; h = h } }
    {
        // For the proof: the number is one of a window.
        let _number = wid.get();
        Geometry { wid, x, y, w, h }
    }

    /// That of a window of the desktop.
    pub fn of(window: &Win) -> Geometry
        ensures { result ≡ geometry_of window.now }
    {
        // For the proof: what every window keeps.
        let _area = window.area();
        Geometry {
            wid: window.wid,
            x: window.x,
            y: window.y,
            w: window.w,
            h: window.h,
        }
    }

    /// What every geometry keeps, as a fact for proofs; the answer is how many pixels the window has.
    pub fn area(self) -> u32
        ensures value { result ≡ self.w * self.h }
        ensures kept { IsGeometry self }
    {
        self.w * self.h
    }
}
