// Limits over all windows, and which of several faults is named.
use crate::outcomes::{After, Case, check, check_all};
use std::alloc::Global;
use std::fmt::Write;
use std::test::Fail;

/// At most 4,194,304 pixels stand at once.
const PIXELS: &[After] = &[
    // so many over all windows, and one or one row more
    (
        "",
        "open 1 0 0 4096 1024 | open 1 0 0 2048 2048",
        "a script of 1 lines",
    ),
    (
        "",
        "open 1 0 0 2113 1985 | open 1 0 0 4096 1025 | open 1 0 0 4096 4096",
        "script line 1: pixels",
    ),
    (
        "open 1 0 0 4096 1024\n",
        "open 2 0 0 1 1",
        "script line 2: pixels",
    ),
    (
        "open 1 0 0 4096 1023\nopen 2 0 0 4096 1\n",
        "open 3 0 0 1 1",
        "script line 3: pixels",
    ),
    (
        "open 1 0 0 1 1\n",
        "resize 1 2113 1985 | resize 1 4096 4096",
        "script line 2: pixels",
    ),
    (
        "open 1 0 0 4096 1023\nopen 2 0 0 4095 1\n",
        "resize 2 2049 2",
        "script line 3: pixels",
    ),
    (
        "open 1 0 0 4096 1023\nopen 2 0 0 1 1\n",
        "resize 2 4096 2",
        "script line 3: pixels",
    ),
    (
        "open 1 0 0 2048 1024\nopen 2 0 0 2048 1024\n",
        "resize 1 2048 1025",
        "script line 3: pixels",
    ),
    (
        "open 1 0 0 4096 1023\nopen 2 0 0 1 1\nresize 2 4096 1\n",
        "resize 1 1024 4092",
        "a script of 4 lines",
    ),
    (
        "open 1 0 0 4096 1024\nresize 1 1024 4096\nclose 1\n",
        "open 2 0 0 4096 1024",
        "a script of 4 lines",
    ),
    // a window that was closed, or made smaller, leaves room
    (
        "open 1 0 0 4096 1024\nresize 1 4096 1023\n",
        "open 2 0 0 4096 1",
        "a script of 3 lines",
    ),
    (
        "open 1 0 0 4096 1024\nresize 1 4096 1023\n",
        "open 2 0 0 4096 2",
        "script line 3: pixels",
    ),
];

#[test]
fn all_windows_have_at_most_4_194_304_pixels(rt: HostRuntime) -> Result<(), Fail> {
    check_all(&rt, rt.alloc(), PIXELS)
}

/// Lines with several faults, and scripts with several lines at fault.
const ORDER: &[After] = &[
    // several faults in one line: the one that comes first in the table
    ("", "opens 0 x | peer exacts 0 0 0", "script line 1: word"),
    (
        "",
        "open x | close 0 0 | fill 0 x 0 1 1 | move 1 x 32768 0 | raise x y | map 100000 | say x 0 0",
        "script line 1: count",
    ),
    (
        "",
        "send x | finish 0 x | peer dry x 100001",
        "script line 1: count",
    ),
    (
        "",
        "open 0 0 0 1 x | open x 0 0 1 0 | fill 0 4096 0 1 1 00000 | fill 1 0 0 0 0 xxxxxx",
        "script line 1: number",
    ),
    (
        "",
        "copy 0 0 0 1 1 4096 x | noise 65536 0 0 1 1 x | resize 0 0 x | move 0 0 x | move 0 x 0",
        "script line 1: number",
    ),
    (
        "",
        "map 100000 x | map x 0 | say 100000 0 | capture x 0 | send 100000 x | owed 100000 x",
        "script line 1: number",
    ),
    (
        "",
        "close 65536 | fill 1 4096 0 1 1 000000 | resize 1 0 4096 | raise 0 | leave 100000 | map 9 0",
        "script line 1: range",
    ),
    ("", "say 100000 00", "script line 1: range"),
    (
        "open 1 0 0 4 3\n",
        "open 1 0 0 0 1 | fill 1 0 0 4097 1 000000",
        "script line 2: range",
    ),
    (
        "",
        "resize 1 4096 4096 | fill 1 4095 4095 4096 4096 000000 | copy 1 4095 0 1 1 0 4095",
        "script line 1: no-window",
    ),
    (
        "open 1 0 0 4 3\n",
        "open 1 0 0 4096 4096",
        "script line 2: reused",
    ),
    // the first line with a fault decides, and lines that do nothing are counted
    ("close 1\n", "frob", "script line 1: no-window"),
    (
        "open 1 0 0 4 3\nfill 1 4 0 1 1 000000\nfrob\n",
        "close 9",
        "script line 2: outside",
    ),
    (
        "open 1 0 0 4 3\nopen 1 0 0 4 3\nclose\n",
        "close x",
        "script line 2: reused",
    ),
    (
        "open 1 0 0 2113 1985\n",
        "open 0 0 0 1 1",
        "script line 1: pixels",
    ),
    ("close x\nclose\n", "frob", "script line 1: number"),
    ("close 0\n", "close x", "script line 1: range"),
    ("leave 0\n", "open 0 0 0 1 1", "script line 1: no-peer"),
    (
        "\n \t\n# frob\n\r\n#\nfrob\n",
        "close",
        "script line 6: word",
    ),
    ("turn\n\nturn\n", "turn 1\n", "script line 4: count"),
    ("leave 0\n", "peer exact", "script line 1: no-peer"),
    (
        "fill 1 0 0 1 1 000000\n",
        "open 1 0 0 1 1",
        "script line 1: no-window",
    ),
];

#[test]
fn the_first_fault_of_the_first_line_at_fault_is_named(rt: HostRuntime) -> Result<(), Fail> {
    check_all(&rt, rt.alloc(), ORDER)
}

/// The examples of the page on scripts.
const EXAMPLES: &[After] = &[
    (
        "open 1 0 0 1 1\nclose 1\n",
        "open 1 0 0 1 1",
        "script line 3: reused",
    ),
    (
        "open 1 0 0 2 2\n",
        "fill 1 1 0 2 1 ff0000",
        "script line 2: outside",
    ),
    (
        "open 1 0 0 4096 1024\n",
        "open 2 0 0 1 1",
        "script line 2: pixels",
    ),
    ("", "map 0 1", "script line 1: no-peer"),
];

#[test]
fn the_worked_examples_are_refused(rt: HostRuntime) -> Result<(), Fail> {
    check_all(&rt, rt.alloc(), EXAMPLES)
}

/// Lines after 32 that open a window each, and what the text comes to.
const WINDOWS: &[Case] = &[
    ("", "a script of 32 lines"),
    ("open 33 0 0 1 1", "script line 33: windows"),
    ("open 33 0 0 4096 4096", "script line 33: windows"),
    ("open 1 0 0 1 1", "script line 33: reused"),
    ("open 33 0 0 0 1", "script line 33: range"),
    (
        "raise 1\nresize 1 9 9\nopen 33 0 0 1 1",
        "script line 35: windows",
    ),
    ("close 1\nopen 33 0 0 1 1", "a script of 34 lines"),
    (
        "close 1\nopen 33 0 0 1 1\nopen 34 0 0 1 1",
        "script line 35: windows",
    ),
    ("close 32\nopen 32 0 0 1 1", "script line 34: reused"),
];

/// The lines that open the windows 1 to 32.
fn opened_32(alloc: Global) -> Result<String, Fail> {
    let mut text = String::new(alloc);
    for wid in 1..33 {
        write!(text, "open {wid} 0 0 1 1\n")?;
    }
    Ok(text)
}

#[test]
fn at_most_32_windows_stand_at_once(rt: HostRuntime) -> Result<(), Fail> {
    let before = opened_32(rt.alloc())?;
    for (lines, want) in WINDOWS {
        check(&rt, rt.alloc(), before.as_bytes(), lines, want)?;
    }
    Ok(())
}
