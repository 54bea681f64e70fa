// The desktop.
ghost use Rattle.std.specs.Prelude.{◌≡◌, ◌==◌, [], Some, true, false, length, IfOk, OnOk, OnErr, position};
ghost use Rattle.std.specs.Option.{option_copied};
ghost use Rattle.xp_base.specs.Points.{area};

use crate::generator::noise_pixels;
use crate::window::Win;
use std::alloc::Global;
use std::marker::Model;
use xp_base::{NoMemory, Pixel, Pixels, Rect, Wid};

/// The windows from bottom to top. No two have one number.
#[derive(Debug, Drop)]
pub struct Desk {
    windows: Vec<Win>,
}

impl Model for Desk {
    ghost use Rattle.std.specs.Prelude.{List};
    ghost use Rattle.window_model.specs.Desktop.{Window, IsDesktop};

    ghost Value = { List Window };

    ghost view = { λ d. d.windows.items };

    ghost invariant = { λ d. IsDesktop d.windows.items };
}

impl Desk {
    ghost use Rattle.window_model.specs.Desktop.{IsDesktop, IsSide, IsPlace, IsInWindow, find_window, has_window, opened, filled_on, placed_on, cropped_from, without_window, raised, moved_on, resized_on, copied_on, noised_on};
    ghost use Rattle.window_model.specs.Drawing.{put_at};

    /// No windows. Later windows are made with this allocator.
    pub fn new(alloc: Global) -> Desk
        ensures { result ≡ [] }
    {
        Desk {
            windows: Vec::new(alloc),
        }
    }

    /// How many windows there are; and what every desktop keeps, as a fact for proofs.
    pub fn len(&self) -> usize
        ensures value { result ≡ length self.now }
        ensures kept { IsDesktop self.now }
    {
        self.windows.len()
    }

    pub fn is_empty(&self) -> bool
        ensures { result ≡ (length self.now == 0) }
    {
        self.windows.is_empty()
    }

    /// The windows from bottom to top.
    pub fn as_slice(&self) -> &[Win]
        ensures { result.now ≡ self.now }
    {
        self.windows.as_slice()
    }

    /// The window with this number, `None` exactly where there is none.
    pub fn find(&self, wid: Wid) -> Option<&Win>
        ensures { option_copied result ≡ find_window self.now wid }
    {
        match place_of(self.windows.as_slice(), wid) {
            Some(place) => Some(&self.windows[place]),
            None => None,
        }
    }

    /// Opens a window on top, all pixels 0.
    pub fn add(&mut self, wid: Wid, x: i32, y: i32, w: u32, h: u32) -> Result<(), NoMemory>
        requires new { has_window self.old wid ≡ false }
        requires wide { IsSide w }
        requires high { IsSide h }
        requires across { IsPlace x }
        requires down { IsPlace y }
        ensures ok { OnOk result (self.new ≡ opened self.old wid x y w h) }
        ensures err { OnErr result (self.new ≡ self.old) }
    {
        let alloc = *self.windows.allocator();
        let window = Win::new(alloc, wid, x, y, w, h)?;
        self.windows.push(window)?;
        Ok(())
    }

    /// Closes the window.
    pub fn remove(&mut self, wid: Wid)
        requires { has_window self.old wid ≡ true }
        ensures { self.new ≡ without_window self.old wid }
    {
        let Some(place) = place_of(self.windows.as_slice(), wid) else {
            unreachable!()
        };
        self.windows.remove(place);
    }

    /// Puts the window on top.
    pub fn raise(&mut self, wid: Wid)
        requires { has_window self.old wid ≡ true }
        ensures { self.new ≡ raised self.old wid }
    {
        let Some(place) = place_of(self.windows.as_slice(), wid) else {
            unreachable!()
        };
        let window = self.windows.remove(place);

        // Its own room is free.
        match self.windows.push(window) {
            Ok(()) => {}
            Err(_) => unreachable!(),
        }
    }

    /// Puts the window's top left corner at this point of the desktop.
    pub fn place(&mut self, wid: Wid, x: i32, y: i32)
        requires there { has_window self.old wid ≡ true }
        requires across { IsPlace x }
        requires down { IsPlace y }
        ensures { self.new ≡ moved_on self.old wid x y }
    {
        let Some(place) = place_of(self.windows.as_slice(), wid) else {
            unreachable!()
        };
        let window = &mut self.windows[place];
        window.move_to(x, y);
    }

    /// Gives the window another size, in pixels: each point of both sizes keeps its pixel, and the new ones are 0.
    pub fn resize(&mut self, wid: Wid, w: u32, h: u32) -> Result<(), NoMemory>
        requires there { has_window self.old wid ≡ true }
        requires wide { IsSide w }
        requires high { IsSide h }
        ensures ok { OnOk result (self.new ≡ resized_on self.old wid w h) }
        ensures err { OnErr result (self.new ≡ self.old) }
    {
        let alloc = *self.windows.allocator();
        let Some(place) = place_of(self.windows.as_slice(), wid) else {
            unreachable!()
        };
        let pixels = self.windows[place].resized_pixels(alloc, w, h)?;
        let window = &mut self.windows[place];
        window.resize(w, h, pixels);
        Ok(())
    }

    /// The rectangle of the window gets the colour.
    pub fn fill(&mut self, wid: Wid, r: Rect, p: Pixel)
        requires { IsInWindow self.old wid r }
        ensures { self.new ≡ filled_on self.old wid r p }
    {
        let alloc = *self.windows.allocator();
        let Some(place) = place_of(self.windows.as_slice(), wid) else {
            unreachable!()
        };
        let window = &mut self.windows[place];
        window.fill(alloc, r, p);
    }

    /// The pixels, row by row, stand in the rectangle of the window.
    pub fn put(&mut self, wid: Wid, r: Rect, pixels: &Pixels)
        requires inside { IsInWindow self.old wid r }
        requires sized { length pixels.now ≡ area r }
        ensures { self.new ≡ placed_on self.old wid r pixels.now }
    {
        let alloc = *self.windows.allocator();
        let Some(place) = place_of(self.windows.as_slice(), wid) else {
            unreachable!()
        };
        let window = &mut self.windows[place];
        window.put(alloc, r, pixels);
    }

    /// The pixels of the rectangle, as they were, stand in the rectangle of its sides with its corner at `x` `y` as well,
    /// also where the two meet.
    pub fn copy(&mut self, wid: Wid, r: Rect, x: u32, y: u32) -> Result<(), NoMemory>
        requires inside { IsInWindow self.old wid r }
        requires target { IsInWindow self.old wid (put_at x y r) }
        ensures ok { OnOk result (self.new ≡ copied_on self.old wid r x y) }
        ensures err { OnErr result (self.new ≡ self.old) }
    {
        let alloc = *self.windows.allocator();
        let Some(target) = Rect::new(x, y, r.w, r.h) else {
            unreachable!()
        };
        let pixels = self.crop(alloc, wid, r)?;
        self.put(wid, target, &pixels);
        Ok(())
    }

    /// The rectangle gets the pixels of the generator that starts with the seed, row by row.
    pub fn noise(&mut self, wid: Wid, r: Rect, seed: u32) -> Result<(), NoMemory>
        requires { IsInWindow self.old wid r }
        ensures ok { OnOk result (self.new ≡ noised_on self.old wid r seed) }
        ensures err { OnErr result (self.new ≡ self.old) }
    {
        let alloc = *self.windows.allocator();
        let pixels = noise_pixels(alloc, seed, r.area())?;
        self.put(wid, r, &pixels);
        Ok(())
    }

    /// The pixels in the rectangle of the window, row by row.
    pub fn crop(&self, alloc: Global, wid: Wid, r: Rect) -> Result<Pixels, NoMemory>
        requires { IsInWindow self.now wid r }
        ensures value { IfOk result (λ pixels. cropped_from self.now wid r ≡ Some pixels) }
        ensures sized { IfOk result (λ pixels. length pixels ≡ area r) }
    {
        let Some(window) = self.find(wid) else {
            unreachable!()
        };
        window.crop(alloc, r)
    }
}

/// The place of the window with this number, from the bottom.
fn place_of(windows: &[Win], wid: Wid) -> Option<usize>
    ensures { result ≡ position (λ window. window.wid == wid) windows.now }
{
    windows
        .iter()
        .position(|window| window.wid.get() == wid.get())
}
