// Texts that are as long as they may be, and longer.
use crate::outcomes::check;
use std::alloc::Global;
use std::process::Abort;
use std::test::Fail;

/// How a text begins, a byte, how often it stands then, lines of which one comes after it, and what each text
/// comes to.
type Long = (&'static str, u8, usize, &'static str, &'static str);

/// Texts of 100,000 lines, and of one more, whatever that is; words as long as they may be, and longer.
const LINES: &[Long] = &[
    // line 100,000, and one more, whatever it is
    (
        "",
        b'\n',
        99_999,
        " | \n | # frob | \r",
        "a script of 0 lines",
    ),
    (
        "",
        b'\n',
        99_999,
        "turn | turn\n | peer exact",
        "a script of 1 lines",
    ),
    (
        "",
        b'\n',
        99_999,
        "frob | frob\nturn",
        "script line 100000: word",
    ),
    (
        "",
        b'\n',
        99_999,
        "turn\nfrob | turn\n\n",
        "script line 100001: lines",
    ),
    ("", b'\n', 100_000, "", "a script of 0 lines"),
    (
        "",
        b'\n',
        100_000,
        "open 1 0 0 1 1 | close 1 | fill 1 0 0 1 1 000000 | copy 1 0 0 1 1 0 0 | noise 1 0 0 1 1 0",
        "script line 100001: lines",
    ),
    (
        "",
        b'\n',
        100_000,
        "resize 1 1 1 | move 1 0 0 | raise 1 | peer exact | peer exact u | peer lossy",
        "script line 100001: lines",
    ),
    (
        "",
        b'\n',
        100_000,
        "peer lossy u | peer dry 0 | peer hex 00 | map 0 1 | unmap 0 1 | refresh 0 1 | leave 0",
        "script line 100001: lines",
    ),
    (
        "",
        b'\n',
        100_000,
        "say 0 00 | accept | read 0 | capture 0 1 | take | finish 1 | send 0 1 | owed 0 1 | wait 0",
        "script line 100001: lines",
    ),
    (
        "",
        b'\n',
        100_000,
        "turn | frob | close | close x | close 0 | peer | # turn |   | \r | \n",
        "script line 100001: lines",
    ),
    ("frob\n", b'\n', 200_000, "", "script line 1: word"),
    // words as long as they may be, and longer
    ("peer hex ", b'a', 65_536, "", "a script of 1 lines"),
    ("peer hex ", b'a', 65_537, "", "script line 1: number"),
    ("peer hex ", b'a', 65_538, "", "script line 1: number"),
    (
        "peer exact\nsay 0 ",
        b'a',
        65_536,
        "",
        "a script of 2 lines",
    ),
    (
        "peer exact\nsay 0 ",
        b'a',
        65_537,
        "",
        "script line 2: number",
    ),
    (
        "peer exact\nsay 0 ",
        b'a',
        65_538,
        "",
        "script line 2: number",
    ),
    ("peer exact ", b'~', 64, "", "a script of 1 lines"),
    ("peer exact ", b'~', 65, "", "script line 1: number"),
    ("peer lossy ", b'~', 64, "", "a script of 1 lines"),
    ("peer lossy ", b'~', 65, "", "script line 1: number"),
    ("wait ", b'0', 10, "", "a script of 1 lines"),
    ("wait ", b'0', 11, "", "script line 1: number"),
    ("close ", b'0', 1_000_000, "1", "script line 1: number"),
    (
        "fill 1 0 0 1 1 ",
        b'a',
        1_000_000,
        "",
        "script line 1: number",
    ),
    ("turn", b' ', 1_000_000, "", "a script of 1 lines"),
    ("", b' ', 1_000_000, "turn", "a script of 1 lines"),
    ("", b'a', 1_000_000, "", "script line 1: word"),
];

/// Texts of 33,554,432 bytes, and of one more, which are refused whatever their lines are.
const BYTES: &[Long] = &[
    ("", b'#', 33_554_432, "", "a script of 0 lines"),
    ("", b'#', 33_554_433, "", "script line 0: bytes"),
    ("", b'\n', 33_554_432, "", "script line 100001: lines"),
    ("", b'\n', 33_554_432, "x", "script line 0: bytes"),
    ("frob\n", b'#', 33_554_428, "", "script line 0: bytes"),
];

/// How a text begins.
fn beginning(alloc: Global, text: &str, byte: u8, count: usize) -> Result<Vec<u8>, Fail> {
    let mut bytes = text.as_bytes().to_vec(alloc)?;
    let run = vec![in alloc; byte; count]?;
    bytes.extend_from_slice(run.as_slice())?;
    Ok(bytes)
}

fn check_long(rt: &impl Abort, alloc: Global, rows: &[Long]) -> Result<(), Fail> {
    for (text, byte, count, lines, want) in rows {
        let before = beginning(alloc, text, *byte, *count)?;
        check(rt, alloc, before.as_slice(), lines, want)?;
    }
    Ok(())
}

#[test]
fn a_text_has_at_most_100_000_lines(rt: HostRuntime) -> Result<(), Fail> {
    check_long(&rt, rt.alloc(), LINES)
}

#[test]
fn a_text_has_at_most_33_554_432_bytes(rt: HostRuntime) -> Result<(), Fail> {
    check_long(&rt, rt.alloc(), BYTES)
}
