// A window and drawing in it.
ghost use Rattle.std.specs.Prelude.{◌≡◌, ◌*◌, length, IfOk};
ghost use Rattle.xp_base.specs.Points.{LiesIn, area};
ghost use Rattle.window_model.specs.Drawing.{cropped, resized};
ghost use Rattle.window_model.specs.Desktop.{IsSide, IsPlace};

use crate::rows::{blank_pixels, copy_rows, crop_rows, fill_rows, resize_rows, see_colours};
use std::alloc::Global;
use std::marker::Model;
use std::mem;
use xp_base::{NoMemory, Pixel, Pixels, Rect, Wid};

/// A window: its number, the place of its top left corner on the desktop, its size in pixels, and its
/// pixels row by row from the top.
#[derive(Debug, Drop)]
pub struct Win {
    pub wid: Wid,
    pub x: i32,
    pub y: i32,
    pub w: u32,
    pub h: u32,
    pub pixels: Pixels,
}

impl Model for Win {
    ghost use Rattle.window_model.specs.Desktop.{Window, IsWindow};

    ghost Value = { Window };

    ghost view = { λ s. record { wid = s.wid; x = s.x; y = s.y; w = s.w; h = s.h; pixels = s.pixels } };

    ghost invariant = { λ s. IsWindow (record { wid = s.wid; x = s.x; y = s.y; w = s.w; h = s.h; pixels = s.pixels }) };
}

impl Win {
    ghost use Rattle.window_model.specs.Desktop.{IsWindow, fresh_window, filled_window, placed_window, moved_window, resized_window};

    /// All pixels are 0.
    pub(crate) fn new(
        alloc: Global,
        wid: Wid,
        x: i32,
        y: i32,
        w: u32,
        h: u32,
    ) -> Result<Win, NoMemory>
        requires wide { IsSide w }
        requires high { IsSide h }
        requires across { IsPlace x }
        requires down { IsPlace y }
        ensures value { IfOk result (λ window. window ≡ fresh_window wid x y w h) }
        ensures kept { IfOk result (λ window. IsWindow window) }
    {
        // For the proof: the number is one of a window.
        let _number = wid.get();
        let pixels = Pixels::new(blank_pixels(alloc, w, h)?);
        Ok(Win {
            wid,
            x,
            y,
            w,
            h,
            pixels,
        })
    }

    /// What every window keeps, as a fact for proofs; the answer is how many pixels it has.
    pub fn area(&self) -> u32
        ensures value { result ≡ self.now.w * self.now.h }
        ensures kept { IsWindow self.now }
    {
        self.w * self.h
    }

    pub(crate) fn fill(&mut self, alloc: Global, r: Rect, p: Pixel)
        requires { LiesIn self.old.w self.old.h r }
        ensures value { self.new ≡ filled_window r p self.old }
        ensures kept { IsWindow self.new }
    {
        // For the proof: the number is one of a pixel.
        let _number = p.get();
        // `Pixels` has no mutable view, so that its list is taken out and put back: no copy is made.
        let mut pixels = mem::replace(&mut self.pixels, Pixels::new(Vec::new(alloc))).into_vec();
        fill_rows(&mut pixels, self.w, self.h, r, p);
        self.pixels = Pixels::new(pixels);
    }

    pub(crate) fn put(&mut self, alloc: Global, r: Rect, numbers: &Pixels)
        requires inside { LiesIn self.old.w self.old.h r }
        requires sized { length numbers.now ≡ area r }
        ensures value { self.new ≡ placed_window r numbers.now self.old }
        ensures kept { IsWindow self.new }
    {
        see_colours(numbers.as_slice());
        // Taken out and put back, as in `fill`.
        let mut pixels = mem::replace(&mut self.pixels, Pixels::new(Vec::new(alloc))).into_vec();
        copy_rows(&mut pixels, self.w, self.h, r, numbers.as_slice());
        self.pixels = Pixels::new(pixels);
    }

    /// The pixels in the rectangle, row by row.
    pub fn crop(&self, alloc: Global, r: Rect) -> Result<Pixels, NoMemory>
        requires { LiesIn self.now.w self.now.h r }
        ensures value { IfOk result (λ pixels. pixels ≡ cropped self.now.w r self.now.pixels) }
        ensures sized { IfOk result (λ pixels. length pixels ≡ area r) }
    {
        Ok(Pixels::new(crop_rows(alloc, self.pixels.as_slice(), self.w, self.h, r)?))
    }

    /// The pixels that the window has once its size is this one.
    pub(crate) fn resized_pixels(&self, alloc: Global, w: u32, h: u32) -> Result<Pixels, NoMemory>
        requires wide { IsSide w }
        requires high { IsSide h }
        ensures { IfOk result (λ pixels. pixels ≡ resized self.now.w self.now.h w h self.now.pixels) }
    {
        Ok(Pixels::new(resize_rows(alloc, self.pixels.as_slice(), self.w, self.h, w, h)?))
    }

    /// Another size, with the pixels that were made for it.
    pub(crate) fn resize(&mut self, w: u32, h: u32, pixels: Pixels)
        requires wide { IsSide w }
        requires high { IsSide h }
        requires made { pixels ≡ resized self.old.w self.old.h w h self.old.pixels }
        ensures value { self.new ≡ resized_window w h self.old }
        ensures kept { IsWindow self.new }
    {
        self.w = w;
        self.h = h;
        self.pixels = pixels;
    }

    pub(crate) fn move_to(&mut self, x: i32, y: i32)
        requires across { IsPlace x }
        requires down { IsPlace y }
        ensures value { self.new ≡ moved_window x y self.old }
        ensures kept { IsWindow self.new }
    {
        self.x = x;
        self.y = y;
    }
}
