// Two lists of rectangles, combined from top to bottom.
ghost use Rattle.std.specs.Prelude.{◌≡◌, ◌≤◌, ◌<◌, ◌+◌, IfOk, OnOk, ℕ, true, false};
ghost use Rattle.rect_regions.specs.Bands.{Each, IsBanded};
ghost use Rattle.rect_regions.specs.Combinations.{keeps};
ghost use Rattle.rect_regions.specs.Making.{EndsBy, IsMade};
ghost use Rattle.rect_regions.specs.Sweeping.{IsSorted, IsRuns, IsBelow, IsSwept, AddsRows, AddsRest, IsLastBand, BeginsBelow, IsCombined, combined_row, kept_alone};

use crate::band_search::first_not_past;
use crate::bands::join_band;
use crate::combination::Combination;
use crate::run_merge::append_combined;
use crate::stretches::{left_below, stretch_at};
use std::alloc::Global;
use xp_base::{NoMemory, Rect};

/// How far a list was swept: the rows above `y`, with the last band of what was made from `last` on.
#[derive(Drop)]
struct Swept<'a> {
    last: usize,
    y: u32,
    left: &'a [Rect],
}

/// The row-band list of the points of two lists, so combined. What stands above and below the other
/// is copied as it is.
pub fn combine(
    alloc: Global,
    combination: Combination,
    one: &[Rect],
    other: &[Rect],
) -> Result<Vec<Rect>, NoMemory>
    requires one { IsBanded one.now }
    requires other { IsSorted other.now }
    ensures banded { IfOk result (λ rects. IsBanded rects.items) }
    ensures points { IfOk result (λ rects. IsCombined combination one.now other.now rects.items) }
{
    let place = first_not_past(one, 0, top_row(other));
    let (above, left) = one.split_at(place);
    let mut rects = kept_alone(alloc, combination, above, one.len())?;
    let last = last_band(&rects);
    let from = bottom_row(above);
    let swept = sweep(&mut rects, last, combination, left, other, from)?;
    if !combination.keeps(true, false) {
        return Ok(rects);
    }
    append_rest(&mut rects, combination, swept)?;
    Ok(rects)
}

/// What is kept of rectangles of the one list where there is nothing of the other, with room for more.
fn kept_alone(
    alloc: Global,
    combination: Combination,
    above: &[Rect],
    room: usize,
) -> Result<Vec<Rect>, NoMemory>
    ensures { IfOk result (λ rects. rects.items ≡ kept_alone combination above.now) }
{
    let mut rects = Vec::new(alloc);
    if combination.keeps(true, false) {
        rects.reserve(room)?;
        rects.extend_from_slice(above)?;
    }
    Ok(rects)
}

/// The first row of the first band; of nothing the first row of all.
fn top_row(rects: &[Rect]) -> u32
    requires { IsSorted rects.now }
    ensures { Each (λ r. result ≤ r.y) rects.now }
{
    if rects.is_empty() {
        return 0;
    }
    let first = rects[0];
    first.y
}

/// The row below the last band.
fn bottom_row(rects: &[Rect]) -> u32
    requires { IsSorted rects.now }
    ensures limit { result ≤ 4096 }
    ensures ends { Each (EndsBy result) rects.now }
    ensures least { (row : ℕ) → Each (EndsBy row) rects.now → result ≤ row }
{
    if rects.is_empty() {
        return 0;
    }
    let last = rects[rects.len() - 1];
    last.y + last.h
}

/// Where the last band begins.
fn last_band(rects: &[Rect]) -> usize
    requires { IsBanded rects.now }
    ensures { IsLastBand rects.now result }
{
    if rects.is_empty() {
        return 0;
    }
    let last = rects[rects.len() - 1];
    first_not_past(rects, 0, last.y)
}

/// Appends the rows from `from` on down to the last one of the other list.
fn sweep<'a>(
    rects: &mut Vec<Rect>,
    last: usize,
    combination: Combination,
    one: &'a [Rect],
    other: &[Rect],
    from: u32,
) -> Result<Swept<'a>, NoMemory>
    requires made { IsMade rects.old.items last from }
    requires one { IsBelow from one.now one.now }
    requires other { IsBelow from other.now other.now }
    requires limit { from ≤ 4096 }
    ensures { IfOk result (λ s.
        IsSwept combination one.now other.now rects.old.items rects.new.items from s.last s.y s.left.now) }
{
    let limit = bottom_row(other);
    let mut last = last;
    let mut one_left = one;
    let mut other_left = other;
    let mut y = from;
    while y < limit {
        let one_rows = stretch_at(one_left, y);
        let other_rows = stretch_at(other_left, y);
        let bottom = one_rows.bottom.min(other_rows.bottom);
        last = add_rows(
            rects,
            last,
            combination,
            one_rows.band,
            other_rows.band,
            y,
            bottom,
        )?;
        one_left = left_below(one_left, y, one_rows, bottom);
        other_left = left_below(other_left, y, other_rows, bottom);
        y = bottom;
    }
    Ok(Swept {
        last,
        y,
        left: one_left,
    })
}

/// Appends the rows `top` to `bottom - 1`, in which the lists have the runs of two bands. The answer
/// is where the last band begins.
fn add_rows(
    rects: &mut Vec<Rect>,
    last: usize,
    combination: Combination,
    one: &[Rect],
    other: &[Rect],
    top: u32,
    bottom: u32,
) -> Result<usize, NoMemory>
    requires made { IsMade rects.old.items last top }
    requires some { top < bottom }
    requires down { bottom ≤ 4096 }
    requires one { IsRuns one.now }
    requires other { IsRuns other.now }
    ensures made { IfOk result (λ place. IsMade rects.new.items place bottom) }
    ensures points { OnOk result
        (AddsRows rects.old.items rects.new.items top bottom (combined_row combination one.now other.now)) }
{
    let start = rects.len();
    append_combined(rects, combination, one, other, top, bottom)?;
    let place = join_band(rects, last, start, top, bottom);
    Ok(place)
}

/// Appends what is left of a list below the row to which it was swept.
fn append_rest(
    rects: &mut Vec<Rect>,
    combination: Combination,
    swept: Swept<'_>,
) -> Result<(), NoMemory>
    requires alone { keeps combination true false ≡ true }
    requires made { IsMade rects.old.items swept.last swept.y }
    requires left { IsBelow swept.y swept.left.now swept.left.now }
    requires anew { Each (BeginsBelow swept.y swept.left.now) swept.left.now }
    ensures banded { OnOk result (IsBanded rects.new.items) }
    ensures points { OnOk result
        (AddsRest rects.old.items rects.new.items swept.entry.y swept.entry.left.now) }
{
    if swept.left.is_empty() {
        return Ok(());
    }
    let rows = stretch_at(swept.left, swept.y);
    let (none, _) = swept.left.split_at(0);
    add_rows(
        rects,
        swept.last,
        combination,
        rows.band,
        none,
        swept.y,
        rows.bottom,
    )?;
    rects.extend_from_slice(rows.below)?;
    Ok(())
}
