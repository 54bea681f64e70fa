// What a line changes of what is kept of the lines so far.
ghost use Rattle.std.specs.Prelude.{◌≡◌, ◌<◌, ℕ, true, false, length, slice_index_or, IfOk};
ghost use Rattle.paint_script.specs.Faults.{with_resized, is_join};
ghost use Rattle.paint_script.specs.Validity.{opens};
ghost use Rattle.paint_script.specs.Kept.{without, raised_last, windows_with, is_marked, marked};

use crate::faults::{find_open, resized};
use crate::opening::Opening;
use link_bay::Order;
use script_lines::Paint;
use std::alloc::Global;
use xp_base::{NoMemory, Wid};

fn close(windows: &mut Vec<Opening>, wid: Wid)
    ensures { windows.new.items ≡ without windows.old.items wid }
{
    windows.retain(|o| o.wid.get() != wid.get());
}

fn resize(windows: &mut Vec<Opening>, wid: Wid, w: u32, h: u32)
    ensures { windows.new.items ≡ with_resized windows.old.items wid w h }
{
    for o in windows.iter_mut() {
        *o = resized(*o, wid, w, h);
    }
}

fn raise(windows: &mut Vec<Opening>, wid: Wid) -> Result<(), NoMemory>
    ensures { IfOk result (λ _. windows.new.items ≡ raised_last windows.old.items wid) }
{
    let raised = find_open(windows.as_slice(), wid);
    close(windows, wid);
    if let Some(o) = raised {
        windows.push(o)?;
    }
    Ok(())
}

/// The windows after a line.
pub fn windows_with(mut windows: Vec<Opening>, paint: &Paint) -> Result<Vec<Opening>, NoMemory>
    ensures { IfOk result (λ after. after.items ≡ windows_with windows.items paint.now) }
{
    match paint {
        Paint::Open { wid, w, h, .. } => windows.push(Opening {
            wid: *wid,
            w: *w,
            h: *h,
        })?,
        Paint::Close { wid } => close(&mut windows, *wid),
        Paint::Resize { wid, w, h } => resize(&mut windows, *wid, *w, *h),
        Paint::Raise { wid } => raise(&mut windows, *wid)?,
        Paint::Fill { .. } | Paint::Copy { .. } | Paint::Noise { .. } | Paint::Move { .. } => {}
    }
    Ok(windows)
}

/// So many marks, none of them set.
pub fn no_marks(alloc: Global, count: usize) -> Result<Vec<bool>, NoMemory>
    ensures sized { IfOk result (λ marks. length marks.items ≡ count) }
    ensures clear { IfOk result (λ marks. (k : ℕ) → k < count → slice_index_or marks.items k false ≡ false) }
{
    Ok(vec![in alloc; false; count]?)
}

/// Whether a line opens a number that is marked.
pub fn is_marked(marks: &[bool], paint: &Paint) -> bool
    requires { length marks.now ≡ 65536 }
    ensures value { result ≡ is_marked marks.now paint.now }
    ensures small { (k : ℕ) → opens k paint.now ≡ true → k < 65536 }
{
    match paint {
        Paint::Open { wid, .. } => marks[wid.get() as usize],
        _ => false,
    }
}

/// Marks the number that a line opens.
pub fn mark(marks: &mut Vec<bool>, paint: &Paint)
    requires { length marks.old.items ≡ 65536 }
    ensures { marks.new.items ≡ marked marks.old.items paint.now }
{
    if let Paint::Open { wid, .. } = paint {
        marks[wid.get() as usize] = true;
    }
}

/// Whether a peer joins.
pub fn is_join(order: &Order) -> bool
    ensures { result ≡ is_join order.now }
{
    matches!(order, Order::Join(..))
}
