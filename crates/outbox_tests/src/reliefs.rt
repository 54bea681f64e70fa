// Reliefs of one window's draws, clipped and emptied.
use crate::line::{Line, put_text};
use std::alloc::Global;
use std::fmt::Write;
use std::test::Fail;
use xp_base::Wid;

/// The packets of the line: the window of a draw, or 0, and the bytes.
const PACKETS: &[(i64, &[u8])] = &[
    (1, b"first"),
    (2, b"other"),
    (0, b"resized"),
    (1, b"second"),
];

fn line_of_draws(alloc: Global) -> Result<Line, Fail> {
    let mut line = Line::new(alloc, 65_536, &[])?;
    line.reserve(4)?;
    for (wid, bytes) in PACKETS {
        match Wid::new(*wid) {
            Some(wid) => line.put_draw(alloc, wid, bytes)?,
            None => line.put(alloc, bytes)?,
        }
    }
    Ok(line)
}

/// Points of windows: the window, the column and the row.
const POINTS: &[(i64, u32, u32)] = &[(1, 1, 2), (1, 2, 2), (1, 1, 3), (2, 3, 3), (3, 0, 0)];

/// Writes at each of the points whether a draw waits in the window, and whether one relieves the point.
fn tell(line: &Line, out: &mut String) -> Result<(), Fail> {
    for (wid, x, y) in POINTS {
        let wid = Wid::new(*wid).ok_or("a window")?;
        out.push_str(line.waits(wid, *x, *y))?;
    }
    Ok(())
}

/// What is told of the points: at first; of the counts of points and of the points when the first window
/// was clipped to 2 by 3; when its reliefs were emptied; and how many bytes then wait, how many writes take
/// them, and the bytes.
const TOLD: &str = "owed owed owed owed none \
    6 6 owed busy busy owed none \
    busy busy busy owed none \
    23 4 firstotherresizedsecond";

fn told_of_reliefs(alloc: Global) -> Result<String, Fail> {
    let window = Wid::new(1).ok_or("a window")?;
    let mut line = line_of_draws(alloc)?;
    let mut out = String::new(alloc);
    tell(&line, &mut out)?;
    line.clip(&mut out, window, 2, 3)?;
    tell(&line, &mut out)?;
    line.forget(window);
    tell(&line, &mut out)?;
    let before = line.weight();
    let writes = line.send_all(65_536);
    write!(out, "{before} {writes} ")?;
    put_text(&mut out, line.sent())?;
    Ok(out)
}

#[test]
fn reliefs_of_one_window_are_clipped_and_forgotten(rt: HostRuntime) -> Result<(), Fail> {
    assert_eq!(rt; told_of_reliefs(rt.alloc())?.as_str(), TOLD);
    Ok(())
}
