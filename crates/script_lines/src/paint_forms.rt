// Paint lines by their words.
ghost use Rattle.std.specs.Prelude.{◌≡◌};
ghost use Rattle.script_lines.specs.declared.kinds.PaintKind.TheVariants as paint;
ghost use Rattle.script_lines.specs.Text.{words_of};
ghost use Rattle.script_lines.specs.Forms.{paint_form};

use crate::arguments::{both, colour_in, number_in, only, place_in, point_in, side_in, wid_in};
use crate::kinds::PaintKind;
use crate::paint::Paint;
use crate::why::Why;

fn open(words: &[u8]) -> Result<Paint, Why>
    ensures { result ≡ paint_form paint.Open (words_of words.now) }
{
    let (wid, words) = wid_in(words);
    let (x, words) = place_in(words);
    let (y, words) = place_in(words);
    let (w, words) = side_in(words);
    let (h, words) = side_in(words);
    let (wid, (x, (y, (w, h)))) = both(wid, both(x, both(y, both(w, only(h, words)))))?;
    Ok(Paint::Open { wid, x, y, w, h })
}

fn fill(words: &[u8]) -> Result<Paint, Why>
    ensures { result ≡ paint_form paint.Fill (words_of words.now) }
{
    let (wid, words) = wid_in(words);
    let (x, words) = point_in(words);
    let (y, words) = point_in(words);
    let (w, words) = side_in(words);
    let (h, words) = side_in(words);
    let (c, words) = colour_in(words);
    let sides = both(w, both(h, only(c, words)));
    let (wid, (x, (y, (w, (h, c))))) = both(wid, both(x, both(y, sides)))?;
    Ok(Paint::Fill { wid, x, y, w, h, c })
}

fn copy(words: &[u8]) -> Result<Paint, Why>
    ensures { result ≡ paint_form paint.Copy (words_of words.now) }
{
    let (wid, words) = wid_in(words);
    let (x, words) = point_in(words);
    let (y, words) = point_in(words);
    let (w, words) = side_in(words);
    let (h, words) = side_in(words);
    let (tx, words) = point_in(words);
    let (ty, words) = point_in(words);
    let sides = both(w, both(h, both(tx, only(ty, words))));
    let (wid, (x, (y, (w, (h, (tx, ty)))))) = both(wid, both(x, both(y, sides)))?;
    Ok(Paint::Copy {
        wid,
        x,
        y,
        w,
        h,
        tx,
        ty,
    })
}

fn noise(words: &[u8]) -> Result<Paint, Why>
    ensures { result ≡ paint_form paint.Noise (words_of words.now) }
{
    let (wid, words) = wid_in(words);
    let (x, words) = point_in(words);
    let (y, words) = point_in(words);
    let (w, words) = side_in(words);
    let (h, words) = side_in(words);
    let (seed, words) = number_in(words, 0, u32::MAX);
    let sides = both(w, both(h, only(seed, words)));
    let (wid, (x, (y, (w, (h, seed))))) = both(wid, both(x, both(y, sides)))?;
    Ok(Paint::Noise {
        wid,
        x,
        y,
        w,
        h,
        seed,
    })
}

fn resize(words: &[u8]) -> Result<Paint, Why>
    ensures { result ≡ paint_form paint.Resize (words_of words.now) }
{
    let (wid, words) = wid_in(words);
    let (w, words) = side_in(words);
    let (h, words) = side_in(words);
    let (wid, (w, h)) = both(wid, both(w, only(h, words)))?;
    Ok(Paint::Resize { wid, w, h })
}

fn place(words: &[u8]) -> Result<Paint, Why>
    ensures { result ≡ paint_form paint.Move (words_of words.now) }
{
    let (wid, words) = wid_in(words);
    let (x, words) = place_in(words);
    let (y, words) = place_in(words);
    let (wid, (x, y)) = both(wid, both(x, only(y, words)))?;
    Ok(Paint::Move { wid, x, y })
}

fn close(words: &[u8]) -> Result<Paint, Why>
    ensures { result ≡ paint_form paint.Close (words_of words.now) }
{
    let (wid, words) = wid_in(words);
    let wid = only(wid, words)?;
    Ok(Paint::Close { wid })
}

fn raise(words: &[u8]) -> Result<Paint, Why>
    ensures { result ≡ paint_form paint.Raise (words_of words.now) }
{
    let (wid, words) = wid_in(words);
    let wid = only(wid, words)?;
    Ok(Paint::Raise { wid })
}

/// The paint line of this kind with these words after its first.
pub fn paint_line(kind: PaintKind, words: &[u8]) -> Result<Paint, Why>
    ensures { result ≡ paint_form kind (words_of words.now) }
{
    match kind {
        PaintKind::Open => open(words),
        PaintKind::Close => close(words),
        PaintKind::Fill => fill(words),
        PaintKind::Copy => copy(words),
        PaintKind::Noise => noise(words),
        PaintKind::Resize => resize(words),
        PaintKind::Move => place(words),
        PaintKind::Raise => raise(words),
    }
}
