// One stream, however its writes are cut, and a relief after each byte of its draw.
use crate::line::{Line, put_text};
use std::alloc::Global;
use std::fmt::Write;
use std::test::Fail;
use xp_base::Wid;

const PACKETS: &[&[u8]] = &[b"abc", b"d", b"efgh"];

/// A line with these packets.
fn line_of(alloc: Global, quota: u32, failing: &[u64]) -> Result<Line, Fail> {
    let mut line = Line::new(alloc, quota, failing)?;
    for packet in PACKETS {
        line.put(alloc, packet)?;
    }
    Ok(line)
}

/// The most bytes that a write takes, the most that a send offers, and what is told: how many bytes wait,
/// how many writes take them, how many wait then, and the bytes that were sent.
const CUTS: &[(u32, u32, &str)] = &[
    (65_536, 65_536, "8 3 0 abcdefgh"),
    (1, 65_536, "8 8 0 abcdefgh"),
    (2, 65_536, "8 5 0 abcdefgh"),
    (3, 65_536, "8 4 0 abcdefgh"),
    (4, 65_536, "8 3 0 abcdefgh"),
    (65_536, 1, "8 8 0 abcdefgh"),
    (65_536, 2, "8 5 0 abcdefgh"),
    (65_536, 3, "8 4 0 abcdefgh"),
    (65_536, 4, "8 3 0 abcdefgh"),
    (3, 2, "8 5 0 abcdefgh"),
];

fn told_of_cuts(alloc: Global, quota: u32, max: u32) -> Result<String, Fail> {
    let mut line = line_of(alloc, quota, &[])?;
    let mut out = String::new(alloc);
    let before = line.weight();
    let writes = line.send_all(max);
    let after = line.weight();
    write!(out, "{before} {writes} {after} ")?;
    put_text(&mut out, line.sent())?;
    Ok(out)
}

#[test]
fn bytes_go_out_in_order_however_writes_are_cut(rt: HostRuntime) -> Result<(), Fail> {
    for (quota, max, want) in CUTS {
        let told = told_of_cuts(rt.alloc(), *quota, *max)?;
        assert_eq!(rt; told.as_str(), *want, "{quota} {max}");
    }
    Ok(())
}

/// The most bytes that a write takes, the numbers of the writes that fail, how many sends there are, and
/// what is told: what they come to, how many bytes wait then, and the bytes that were sent.
const TRIES: &[(u32, &[u64], u32, &str)] = &[
    (0, &[], 2, "Again Again 8 "),
    (
        2,
        &[2, 3],
        8,
        "Took(2) Failed Failed Took(1) Took(1) Took(2) Took(2) Idle 0 abcdefgh",
    ),
];

fn told_of_tries(alloc: Global, quota: u32, failing: &[u64], times: u32) -> Result<String, Fail> {
    let mut line = line_of(alloc, quota, failing)?;
    let mut out = String::new(alloc);
    line.sends(&mut out, 65_536, times)?;
    let after = line.weight();
    write!(out, "{after} ")?;
    put_text(&mut out, line.sent())?;
    Ok(out)
}

#[test]
fn a_write_that_takes_nothing_changes_nothing(rt: HostRuntime) -> Result<(), Fail> {
    for (quota, failing, times, want) in TRIES {
        let told = told_of_tries(rt.alloc(), *quota, failing, *times)?;
        assert_eq!(rt; told.as_str(), *want);
    }
    Ok(())
}

/// How many bytes of a draw of four were taken, and what is told: whether it waits and relieves a point
/// before and after, how many bytes wait then, and the bytes that were sent in the end.
const DRAWS: &[(u32, &str)] = &[
    (1, "owed Took(1) owed 3 abdraw"),
    (2, "owed Took(2) owed 2 abdraw"),
    (3, "owed Took(3) owed 1 abdraw"),
    (4, "owed Took(4) none 0 abdraw"),
];

fn told_of_draw(alloc: Global, cut: u32) -> Result<String, Fail> {
    let wid = Wid::new(7).ok_or("a window")?;
    let mut line = Line::new(alloc, 65_536, &[])?;
    let mut out = String::new(alloc);
    line.put(alloc, b"ab")?;
    line.put_draw(alloc, wid, b"draw")?;
    line.send(65_536);
    out.push_str(line.waits(wid, 3, 0))?;
    line.sends(&mut out, cut, 1)?;
    out.push_str(line.waits(wid, 3, 0))?;
    let left = line.weight();
    write!(out, "{left} ")?;
    line.send_all(65_536);
    put_text(&mut out, line.sent())?;
    Ok(out)
}

#[test]
fn a_relief_ends_with_its_last_byte(rt: HostRuntime) -> Result<(), Fail> {
    for (cut, want) in DRAWS {
        let told = told_of_draw(rt.alloc(), *cut)?;
        assert_eq!(rt; told.as_str(), *want);
    }
    Ok(())
}
