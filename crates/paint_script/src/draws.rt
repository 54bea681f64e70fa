// The rounds of a generated script.
ghost use Rattle.std.specs.Prelude.{◌≡◌, ◌+◌, ◌*◌, ◌<◌, ◌≤◌};
ghost use Rattle.paint_script.specs.Generated.{IsDrawn, drawn, round_line, state_after};

use script_lines::Paint;
use window_model::Generator;
use xp_base::{Pixel, Wid};

/// The numbers of one round: which kind of line, the window, a place and a size in it, and a colour.
#[derive(Clone, Copy, Debug)]
pub struct Draw {
    pub kind: u32,
    pub wid: Wid,
    pub x: u32,
    pub y: u32,
    pub w: u32,
    pub h: u32,
    pub c: Pixel,
}

/// A window's number, 1 to 4.
fn one_of_four(number: u32) -> Wid
    requires { number < 4 }
    ensures { result ≡ 1 + number }
{
    match Wid::new(i64::from(1 + number)) {
        Some(wid) => wid,
        None => unreachable!(),
    }
}

/// The next seven numbers.
#[tactic(auto, unfolding(crate::specs::Generated::state_after, crate::specs::Generated::drawn))]
pub fn draw_round(generator: &mut Generator) -> Draw
    ensures state { generator.new ≡ state_after generator.old 7 }
    ensures drawn { result ≡ drawn generator.old }
    ensures ranges { IsDrawn result }
{
    let kind = generator.next() % 8;
    let wid = one_of_four(generator.next() % 4);
    let x = generator.next() % 128;
    let y = generator.next() % 128;
    let w = 1 + generator.next() % 64;
    let h = 1 + generator.next() % 64;
    let c = generator.next_pixel();
    Draw {
        kind,
        wid,
        x,
        y,
        w,
        h,
        c,
    }
}

/// The line of a round.
#[tactic(auto, unfolding(crate::specs::Generated::round_line))]
pub fn round_line(d: Draw) -> Paint
    requires { IsDrawn d }
    ensures { result ≡ round_line d }
{
    let Draw {
        kind,
        wid,
        x,
        y,
        w,
        h,
        c,
    } = d;
    match kind {
        3 => Paint::Noise {
            wid,
            x,
            y,
            w,
            h,
            seed: c.get(),
        },
        4 => Paint::Copy {
            wid,
            x,
            y,
            w,
            h,
            tx: y,
            ty: x,
        },
        5 => Paint::Resize {
            wid,
            w: 191 + w,
            h: 191 + h,
        },
        6 => Paint::Raise { wid },
        7 => Paint::Move {
            wid,
            x: x as i32,
            y: y as i32,
        },
        _ => Paint::Fill { wid, x, y, w, h, c },
    }
}
