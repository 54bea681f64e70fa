// A draw, clipped to its window.
ghost use Rattle.std.specs.Prelude.{◌≡◌, ◌≤◌, ◌⊎◌, OnOk, OnErr, MatchOption};
ghost use Rattle.xp_base.specs.Points.{clip};
ghost use Rattle.rgb_encoders.specs.Decoded.{HoldsPixels, decoded};
ghost use Rattle.window_model.specs.Desktop.{changed_window};
ghost use Rattle.packet_kinds.specs.Effects.{drawn_window};
ghost use Rattle.client_replay.specs.Clipping.{IsUnseen, IsSeen};

use rgb_encoders::{DataFault, decode};
use std::alloc::Global;
use window_model::Desk;
use xp_base::{Coding, NoMemory, Rect, Wid};

/// The decoded pixels that lie in the window stand there. Only these are decoded.
pub(crate) fn draw(
    alloc: Global,
    desk: &mut Desk,
    wid: Wid,
    r: Rect,
    coding: Coding,
    bytes: &[u8],
    stride: u32,
) -> Result<(), NoMemory>
    requires { HoldsPixels coding r.w r.h stride bytes.now }
    ensures ok { OnOk result (desk.new ≡ changed_window desk.old wid (drawn_window r (decoded coding r.w r.h stride bytes.now))) }
    ensures err { OnErr result (desk.new ≡ desk.old) }
{
    // For the proof: what every desktop and every rectangle keeps.
    let _windows = desk.len();
    let _pixels = r.area();
    let Some(part) = visible(desk, wid, r) else {
        return Ok(());
    };
    let _part = part.area();
    let rows = &bytes[..stride as usize * part.h as usize];
    match decode(alloc, coding, part.w, part.h, stride, rows) {
        Ok(pixels) => {
            desk.put(wid, part, &pixels);
            Ok(())
        }
        Err(DataFault::NoMemory) => Err(NoMemory),
        Err(DataFault::Stride(_stride)) => unreachable!(),
        Err(DataFault::Length(_length)) => unreachable!(),
    }
}

/// What of the rectangle lies in the window.
fn visible(desk: &Desk, wid: Wid, r: Rect) -> Option<Rect>
    ensures { MatchOption result (IsUnseen desk.now wid r) (λ part. IsSeen desk.now wid r part) }
{
    let window = desk.find(wid)?;
    clipped(r, window.w, window.h)
}

/// What of the rectangle lies in a window of this size.
fn clipped(r: Rect, w: u32, h: u32) -> Option<Rect>
    ensures { MatchOption result (((clip w h r).w ≡ 0) ⊎ ((clip w h r).h ≡ 0)) (λ part. part ≡ clip w h r) }
{
    let _pixels = r.area();
    let across = (r.x + r.w).min(w).saturating_sub(r.x);
    let down = (r.y + r.h).min(h).saturating_sub(r.y);
    Rect::new(r.x, r.y, across, down)
}
