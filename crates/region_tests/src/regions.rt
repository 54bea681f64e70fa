// Sets of points, as bits and as bands.
use rect_regions::{BitRegion, Points, Region};
use std::alloc::Global;
use std::test::Fail;
use window_model::Generator;
use xp_base::{NoMemory, Rect, Rects};

fn rectangle(x: u32, y: u32, w: u32, h: u32) -> Result<Rect, Fail> {
    match Rect::new(x, y, w, h) {
        Some(r) => Ok(r),
        None => Err(Fail::from("no rectangle")),
    }
}

/// The lists of two rows of two points, one below the other, and of what is left without the first.
fn two_rows<P: Points>(alloc: Global) -> Result<(Rects, Rects), Fail> {
    let mut set = P::new(alloc);
    set.union_rect(rectangle(0, 0, 2, 1)?)?;
    set.union_rect(rectangle(0, 1, 2, 1)?)?;
    let whole = set.rects()?;
    set.subtract_rect(rectangle(0, 0, 1, 1)?)?;
    let rest = set.rects()?;
    Ok((whole, rest))
}

#[test]
fn equal_rows_are_one_rectangle_until_a_point_goes(rt: HostRuntime) -> Result<(), Fail> {
    let alloc = rt.alloc();
    let square = [rectangle(0, 0, 2, 2)?];
    let corner = [rectangle(1, 0, 1, 1)?, rectangle(0, 1, 2, 1)?];
    let (bits, bits_rest) = two_rows::<BitRegion>(alloc)?;
    assert_eq!(rt; bits.as_slice(), square.as_slice());
    assert_eq!(rt; bits_rest.as_slice(), corner.as_slice());
    let (bands, bands_rest) = two_rows::<Region>(alloc)?;
    assert_eq!(rt; bands.as_slice(), square.as_slice());
    assert_eq!(rt; bands_rest.as_slice(), corner.as_slice());
    Ok(())
}

#[test]
fn a_region_has_one_piece_and_then_two(rt: HostRuntime) -> Result<(), Fail> {
    let mut region = Region::new(rt.alloc());
    region.union_rect(rectangle(0, 0, 2, 1)?)?;
    region.union_rect(rectangle(0, 1, 2, 1)?)?;
    assert_eq!(rt; region.pieces(), 1);
    region.subtract_rect(rectangle(0, 0, 1, 1)?)?;
    assert_eq!(rt; region.pieces(), 2);
    Ok(())
}

/// A rectangle in 24 by 24 points.
fn next_rectangle(generator: &mut Generator) -> Result<Rect, Fail> {
    let x = generator.next() % 12;
    let y = generator.next() % 12;
    let w = 1 + generator.next() % 12;
    let h = 1 + generator.next() % 12;
    rectangle(x, y, w, h)
}

/// One call, by a number below 8.
fn change<P: Points>(set: &mut P, call: u32, r: Rect) -> Result<(), NoMemory> {
    match call {
        0..=3 => set.union_rect(r),
        4 | 5 => set.subtract_rect(r),
        6 => {
            let mut other = set.part(r)?;
            other.union_rect(Rect {
                x: r.y,
                y: r.x,
                w: 1,
                h: 1,
            })?;
            set.union(&other)
        }
        _ => {
            let mut other = set.copy()?;
            other.clip(r)?;
            set.union_rect(Rect {
                x: 26,
                y: r.y,
                w: 1,
                h: r.h,
            })?;
            set.union(&other)
        }
    }
}

/// Whether two sets answer each call alike.
fn answer_alike<P: Points, Q: Points>(one: &P, other: &Q, r: Rect) -> Result<bool, NoMemory> {
    let alike = one.rects()?.as_slice() == other.rects()?.as_slice()
        && one.part(r)?.rects()?.as_slice() == other.part(r)?.rects()?.as_slice()
        && one.count() == other.count()
        && one.bounds() == other.bounds()
        && one.has(r.x, r.y) == other.has(r.x, r.y)
        && one.has(r.x + r.w, r.y) == other.has(r.x + r.w, r.y)
        && one.has(r.x, r.y + r.h) == other.has(r.x, r.y + r.h);
    Ok(alike)
}

/// The number of calls of one case, each on both types, after which they still answered alike.
fn play(alloc: Global, seed: u64) -> Result<u32, Fail> {
    let mut generator = Generator::new(seed);
    let mut bits = BitRegion::new(alloc);
    let mut bands = Region::new(alloc);
    for done in 0..6 {
        let call = generator.next() % 8;
        let r = next_rectangle(&mut generator)?;
        change(&mut bits, call, r)?;
        change(&mut bands, call, r)?;
        let looked = next_rectangle(&mut generator)?;
        if !answer_alike(&bits, &bands, looked)? {
            return Ok(done);
        }
    }
    bits.clear();
    bands.clear();
    Ok(if bits.count() == bands.count() { 6 } else { 0 })
}

#[test]
fn bits_and_bands_answer_alike_in_300_cases(rt: HostRuntime) -> Result<(), Fail> {
    for seed in 0..300 {
        assert_eq!(rt; play(rt.alloc(), seed)?, 6, "{seed}");
    }
    Ok(())
}
