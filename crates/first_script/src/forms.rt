// The forms of lines.
ghost use Rattle.std.specs.Prelude.{◌≡◌, ◌≤◌, ◌<◌, ◌^◌, IfSome};
ghost use Rattle.std.specs.Option.{option_copied, option_map};
ghost use Rattle.first_script.specs.Text.{words_left};
ghost use Rattle.first_script.specs.Forms.{number_at, rectangle_at, colour_at, open_at, fill_at, peer_at, line_of};

use crate::line::Line;
use crate::numbers::{colour, number};
use crate::paint::Paint;
use crate::text::{is_ended, word_at};
use link_bay::{Kind, Name, Order};
use std::alloc::Global;
use xp_base::{Pixel, Wid};

/// A number in this range, and the words after it.
#[tactic(auto, unfolding(crate::specs::Forms::number_at))]
fn number_at(words: Option<&[u8]>, low: u32, high: u32) -> Option<(u32, Option<&[u8]>)>
    ensures value { option_map (λ x. (x.0, words_left (option_copied x.1))) result ≡ number_at low high (words_left (option_copied words.entry)) }
    ensures range { IfSome result (λ x. (low ≤ x.0) × (x.0 ≤ high)) }
{
    let (word, words) = word_at(words)?;
    let n = number(word)?;
    if n < u64::from(low) || n > u64::from(high) {
        return None;
    }
    Some((n as u32, words))
}

/// A rectangle X Y W H, and the words after it.
#[tactic(auto, unfolding(crate::specs::Forms::rectangle_at))]
fn rectangle_at(words: Option<&[u8]>) -> Option<((u32, u32, u32, u32), Option<&[u8]>)>
    ensures { option_map (λ x. (record { x = x.0.0; y = x.0.1; w = x.0.2; h = x.0.3 }, words_left (option_copied x.1))) result ≡ rectangle_at (words_left (option_copied words.entry)) }
{
    let (x, words) = number_at(words, 0, 4095)?;
    let (y, words) = number_at(words, 0, 4095)?;
    let (w, words) = number_at(words, 1, 4096)?;
    let (h, words) = number_at(words, 1, 4096)?;
    Some(((x, y, w, h), words))
}

/// A colour, and the words after it.
#[tactic(auto, unfolding(crate::specs::Forms::colour_at))]
fn colour_at(words: Option<&[u8]>) -> Option<(u32, Option<&[u8]>)>
    ensures value { option_map (λ x. (x.0, words_left (option_copied x.1))) result ≡ colour_at (words_left (option_copied words.entry)) }
    ensures small { IfSome result (λ x. x.0 < 2 ^ 24) }
{
    let (word, words) = word_at(words)?;
    Some((colour(word)?, words))
}

/// `open WID X Y W H`, after its first word.
#[tactic(auto, unfolding(crate::specs::Forms::open_at))]
fn open_at(words: Option<&[u8]>) -> Option<Line>
    ensures { result ≡ open_at (words_left (option_copied words.entry)) }
{
    let (wid, words) = number_at(words, 1, 65_535)?;
    let (x, words) = number_at(words, 0, 32_767)?;
    let (y, words) = number_at(words, 0, 32_767)?;
    let (w, words) = number_at(words, 1, 4096)?;
    let (h, words) = number_at(words, 1, 4096)?;
    if !is_ended(words) {
        return None;
    }
    Some(Line::Paint(Paint::Open {
        wid: Wid::new(i64::from(wid))?,
        x: x as i32,
        y: y as i32,
        w,
        h,
    }))
}

/// `fill WID X Y W H C`, after its first word.
#[tactic(auto, unfolding(crate::specs::Forms::fill_at))]
fn fill_at(words: Option<&[u8]>) -> Option<Line>
    ensures { result ≡ fill_at (words_left (option_copied words.entry)) }
{
    let (wid, words) = number_at(words, 1, 65_535)?;
    let ((x, y, w, h), words) = rectangle_at(words)?;
    let (c, words) = colour_at(words)?;
    if !is_ended(words) {
        return None;
    }
    Some(Line::Paint(Paint::Fill {
        wid: Wid::new(i64::from(wid))?,
        x,
        y,
        w,
        h,
        c: Pixel::new(c)?,
    }))
}

/// `peer exact`, after its first word.
#[tactic(auto, unfolding(crate::specs::Forms::peer_at))]
fn peer_at(alloc: Global, words: Option<&[u8]>) -> Option<Line>
    ensures { result ≡ peer_at (words_left (option_copied words.entry)) }
{
    let (kind, words) = word_at(words)?;
    if kind != b"exact".as_slice() {
        return None;
    }
    if !is_ended(words) {
        return None;
    }
    Some(Line::Peer(Order::Join(Kind::Exact, Name::new(Vec::new(alloc)))))
}

/// The line that a text is, of the three forms.
#[tactic(auto, unfolding(crate::specs::Forms::line_of))]
pub fn line_of(alloc: Global, text: &[u8]) -> Option<Line>
    ensures { result ≡ line_of text.now }
{
    let (name, words) = word_at(Some(text))?;
    if name == b"open".as_slice() {
        open_at(words)
    } else if name == b"fill".as_slice() {
        fill_at(words)
    } else if name == b"peer".as_slice() {
        peer_at(alloc, words)
    } else {
        None
    }
}
