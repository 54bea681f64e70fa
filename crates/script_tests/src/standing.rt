// Faults of a line after others: windows, clients and numbers that it names, and its rectangles.
use crate::outcomes::{After, check_all};
use std::test::Fail;

/// What a line names is there, is new, and lies in its window.
const STANDING: &[After] = &[
    // no open window: none was opened, another was, or it was closed
    (
        "",
        "close 1 | fill 1 0 0 1 1 000000 | copy 1 0 0 1 1 0 0 | noise 1 0 0 1 1 0 | resize 1 1 1",
        "script line 1: no-window",
    ),
    ("", "move 1 0 0 | raise 1", "script line 1: no-window"),
    (
        "open 2 0 0 4 3\n",
        "close 1 | fill 1 0 0 1 1 000000 | copy 1 0 0 1 1 0 0 | noise 1 0 0 1 1 0 | resize 1 1 1",
        "script line 2: no-window",
    ),
    (
        "open 2 0 0 4 3\n",
        "move 1 0 0 | raise 1",
        "script line 2: no-window",
    ),
    (
        "open 1 0 0 4 3\nclose 1\n",
        "close 1 | fill 1 0 0 1 1 000000 | copy 1 0 0 1 1 0 0 | noise 1 0 0 1 1 0 | resize 1 1 1",
        "script line 3: no-window",
    ),
    (
        "open 1 0 0 4 3\nclose 1\n",
        "move 1 0 0 | raise 1",
        "script line 3: no-window",
    ),
    // no such client: each line that begins with `peer` counts, whatever comes after it
    (
        "",
        "map 0 1 | unmap 0 1 | refresh 0 1 | leave 0 | say 0 00",
        "script line 1: no-peer",
    ),
    (
        "peer exact\n",
        "map 1 1 | unmap 1 1 | refresh 1 1 | leave 1 | say 1 00",
        "script line 2: no-peer",
    ),
    (
        "peer exact\npeer lossy u\npeer dry 1\npeer hex 00\n",
        "map 4 1 | unmap 4 1 | refresh 4 1 | leave 4 | say 4 00",
        "script line 5: no-peer",
    ),
    (
        "peer exact\npeer lossy u\npeer dry 1\npeer hex 00\n",
        "map 3 1 | unmap 3 1 | refresh 3 1 | leave 3 | say 3 00",
        "a script of 5 lines",
    ),
    (
        "peer exact\nleave 0\nleave 0\n",
        "map 0 9",
        "a script of 4 lines",
    ),
    (
        "read 0\ncapture 9 9\nsend 9 1\nowed 9 9\n",
        "finish 9",
        "a script of 5 lines",
    ),
    // a number is opened again: at once, after it was closed, and with a zero before it
    (
        "open 1 0 0 4 3\n",
        "open 1 0 0 4 3",
        "script line 2: reused",
    ),
    (
        "open 1 0 0 4 3\nclose 1\n",
        "open 1 0 0 4 3",
        "script line 3: reused",
    ),
    (
        "open 1 0 0 4 3\nclose 1\nopen 2 0 0 1 1\nclose 2\n",
        "open 2 0 0 1 1",
        "script line 5: reused",
    ),
    (
        "open 1 0 0 4 3\n",
        "open 01 5 5 1 1",
        "script line 2: reused",
    ),
    (
        "open 65535 0 0 1 1\nclose 65535\n",
        "open 65535 0 0 1 1",
        "script line 3: reused",
    ),
    (
        "open 1 0 0 4 3\nclose 1\nopen 2 0 0 4 3\n",
        "close 2",
        "a script of 4 lines",
    ),
    // a rectangle one past each edge, and as far as it may lie
    (
        "open 1 0 0 4 3\n",
        "fill 1 1 0 4 1 000000 | fill 1 4 0 1 1 000000 | fill 1 0 1 1 3 000000",
        "script line 2: outside",
    ),
    (
        "open 1 0 0 4 3\n",
        "fill 1 0 3 1 1 000000 | fill 1 0 0 5 1 000000 | fill 1 0 0 1 4 000000",
        "script line 2: outside",
    ),
    (
        "open 1 0 0 4 3\nfill 1 0 0 4 3 000000\n",
        "fill 1 3 2 1 1 000000",
        "a script of 3 lines",
    ),
    (
        "open 1 0 0 4 3\n",
        "noise 1 1 0 4 1 0 | noise 1 4 0 1 1 0 | noise 1 0 1 1 3 0 | noise 1 0 3 1 1 0",
        "script line 2: outside",
    ),
    (
        "open 1 0 0 4 3\n",
        "noise 1 0 0 5 1 0 | noise 1 0 0 1 4 0",
        "script line 2: outside",
    ),
    (
        "open 1 0 0 4 3\nnoise 1 0 0 4 3 0\n",
        "noise 1 3 2 1 1 0",
        "a script of 3 lines",
    ),
    (
        "open 1 0 0 4 3\n",
        "copy 1 1 0 4 1 0 0 | copy 1 4 0 1 1 0 0 | copy 1 0 1 1 3 0 0 | copy 1 0 3 1 1 0 0",
        "script line 2: outside",
    ),
    (
        "open 1 0 0 4 3\n",
        "copy 1 0 0 5 1 0 0 | copy 1 0 0 1 4 0 0",
        "script line 2: outside",
    ),
    (
        "open 1 0 0 4 3\ncopy 1 0 0 4 3 0 0\n",
        "copy 1 3 2 1 1 0 0",
        "a script of 3 lines",
    ),
    (
        "open 1 0 0 4 3\n",
        "copy 1 0 0 4 1 1 0 | copy 1 0 0 1 1 4 0 | copy 1 0 0 1 3 0 1 | copy 1 0 0 1 1 0 3",
        "script line 2: outside",
    ),
    (
        "open 1 0 0 4 3\n",
        "copy 1 4095 0 1 1 0 0 | copy 1 0 0 1 1 0 4095",
        "script line 2: outside",
    ),
    (
        "open 1 0 0 4 3\ncopy 1 0 0 2 2 2 1\n",
        "copy 1 2 1 2 2 0 0",
        "a script of 3 lines",
    ),
    // the size is that of the window now
    (
        "open 1 0 0 4 3\nresize 1 3 3\n",
        "fill 1 3 0 1 1 000000",
        "script line 3: outside",
    ),
    (
        "open 1 0 0 4 3\nresize 1 4 2\n",
        "noise 1 0 2 1 1 0",
        "script line 3: outside",
    ),
    (
        "open 1 0 0 4 3\nresize 1 9 9\nresize 1 4 3\n",
        "copy 1 0 0 1 1 4 0",
        "script line 4: outside",
    ),
    (
        "open 1 0 0 4 3\nopen 2 0 0 9 9\n",
        "fill 1 8 0 1 1 000000",
        "script line 3: outside",
    ),
    (
        "open 1 0 0 4 3\nresize 1 5 3\nfill 1 4 0 1 1 000000\nmove 1 -9 9\n",
        "fill 1 0 0 5 3 000000",
        "a script of 5 lines",
    ),
    (
        "open 2 0 0 9 9\nopen 1 0 0 4 3\nraise 2\nfill 2 8 0 1 1 000000\n",
        "fill 1 3 2 1 1 000000",
        "a script of 5 lines",
    ),
];

#[test]
fn what_a_line_names_is_there_and_its_rectangles_lie_in_it(rt: HostRuntime) -> Result<(), Fail> {
    check_all(&rt, rt.alloc(), STANDING)
}
