// Lines as they are read.
use crate::outcomes::{Case, shown_all};
use std::test::Fail;

/// Each kind of line, with the least and the greatest numbers that it takes.
const KINDS: &[Case] = &[
    // paint lines
    (
        "open 1 0 0 1 1",
        "Paint(Open { wid: Wid(1), x: 0, y: 0, w: 1, h: 1 })",
    ),
    (
        "open 65535 -32768 32767 4096 1024",
        "Paint(Open { wid: Wid(65535), x: -32768, y: 32767, w: 4096, h: 1024 })",
    ),
    (
        "open 2 32767 -32768 1 4096",
        "Paint(Open { wid: Wid(2), x: 32767, y: -32768, w: 1, h: 4096 })",
    ),
    (
        "open 1 0 0 4096 1\nclose 1",
        "Paint(Open { wid: Wid(1), x: 0, y: 0, w: 4096, h: 1 }) / Paint(Close { wid: Wid(1) })",
    ),
    (
        "open 1 0 0 4096 1\nfill 1 4095 0 1 1 0aFfC9",
        "Paint(Open { wid: Wid(1), x: 0, y: 0, w: 4096, h: 1 }) / Paint(Fill { wid: Wid(1), x: 4095, y: 0, w: 1, h: 1, c: Pixel(720841) })",
    ),
    (
        "open 1 0 0 1 4096\nfill 1 0 4095 1 1 FFFFFF",
        "Paint(Open { wid: Wid(1), x: 0, y: 0, w: 1, h: 4096 }) / Paint(Fill { wid: Wid(1), x: 0, y: 4095, w: 1, h: 1, c: Pixel(16777215) })",
    ),
    (
        "open 1 0 0 4096 1\ncopy 1 1 0 4095 1 0 0",
        "Paint(Open { wid: Wid(1), x: 0, y: 0, w: 4096, h: 1 }) / Paint(Copy { wid: Wid(1), x: 1, y: 0, w: 4095, h: 1, tx: 0, ty: 0 })",
    ),
    (
        "open 1 0 0 1 4096\ncopy 1 0 0 1 2 0 4094",
        "Paint(Open { wid: Wid(1), x: 0, y: 0, w: 1, h: 4096 }) / Paint(Copy { wid: Wid(1), x: 0, y: 0, w: 1, h: 2, tx: 0, ty: 4094 })",
    ),
    (
        "open 1 0 0 4096 1\ncopy 1 0 0 1 1 4095 0",
        "Paint(Open { wid: Wid(1), x: 0, y: 0, w: 4096, h: 1 }) / Paint(Copy { wid: Wid(1), x: 0, y: 0, w: 1, h: 1, tx: 4095, ty: 0 })",
    ),
    (
        "open 1 0 0 4096 1\nnoise 1 0 0 4096 1 0",
        "Paint(Open { wid: Wid(1), x: 0, y: 0, w: 4096, h: 1 }) / Paint(Noise { wid: Wid(1), x: 0, y: 0, w: 4096, h: 1, seed: 0 })",
    ),
    (
        "open 1 0 0 1 4096\nnoise 1 0 0 1 4096 4294967295",
        "Paint(Open { wid: Wid(1), x: 0, y: 0, w: 1, h: 4096 }) / Paint(Noise { wid: Wid(1), x: 0, y: 0, w: 1, h: 4096, seed: 4294967295 })",
    ),
    (
        "open 1 0 0 4096 1\nresize 1 1 4096",
        "Paint(Open { wid: Wid(1), x: 0, y: 0, w: 4096, h: 1 }) / Paint(Resize { wid: Wid(1), w: 1, h: 4096 })",
    ),
    (
        "open 1 0 0 4096 1\nresize 1 4096 1024",
        "Paint(Open { wid: Wid(1), x: 0, y: 0, w: 4096, h: 1 }) / Paint(Resize { wid: Wid(1), w: 4096, h: 1024 })",
    ),
    (
        "open 1 0 0 4096 1\nmove 1 -32768 32767",
        "Paint(Open { wid: Wid(1), x: 0, y: 0, w: 4096, h: 1 }) / Paint(Move { wid: Wid(1), x: -32768, y: 32767 })",
    ),
    (
        "open 1 0 0 4096 1\nmove 1 32767 -32768",
        "Paint(Open { wid: Wid(1), x: 0, y: 0, w: 4096, h: 1 }) / Paint(Move { wid: Wid(1), x: 32767, y: -32768 })",
    ),
    (
        "open 1 0 0 4096 1\nraise 1",
        "Paint(Open { wid: Wid(1), x: 0, y: 0, w: 4096, h: 1 }) / Paint(Raise { wid: Wid(1) })",
    ),
    // peer lines
    ("peer exact", "Peer(Join(Exact, Name([])))"),
    ("peer exact !~", "Peer(Join(Exact, Name([33, 126])))"),
    ("peer exact #", "Peer(Join(Exact, Name([35])))"),
    ("peer lossy", "Peer(Join(Lossy, Name([])))"),
    ("peer lossy u-1", "Peer(Join(Lossy, Name([117, 45, 49])))"),
    ("peer dry 0", "Peer(Join(Dry(0), Name([])))"),
    ("peer dry 100000", "Peer(Join(Dry(100000), Name([])))"),
    ("peer hex 00fFA9", "Peer(Join(Hex, Name([0, 255, 169])))"),
    (
        "peer exact\nmap 0 65535",
        "Peer(Join(Exact, Name([]))) / Peer(Map(Conn(0), Wid(65535)))",
    ),
    (
        "peer exact\nunmap 0 1",
        "Peer(Join(Exact, Name([]))) / Peer(Unmap(Conn(0), Wid(1)))",
    ),
    (
        "peer exact\nrefresh 0 2",
        "Peer(Join(Exact, Name([]))) / Peer(Refresh(Conn(0), Wid(2)))",
    ),
    (
        "peer exact\nleave 0",
        "Peer(Join(Exact, Name([]))) / Peer(Leave(Conn(0)))",
    ),
    (
        "peer exact\nsay 0 7F80",
        "Peer(Join(Exact, Name([]))) / Peer(Say(Conn(0), Name([127, 128])))",
    ),
    // plan lines
    ("accept", "Plan(Accept)"),
    ("read 99999", "Plan(Read { k: 99999 })"),
    (
        "capture 99999 65535",
        "Plan(Capture { k: 99999, wid: Wid(65535) })",
    ),
    ("take", "Plan(Take)"),
    ("finish 1", "Plan(Finish { j: 1 })"),
    ("finish 9999999999", "Plan(Finish { j: 9999999999 })"),
    ("send 0 1", "Plan(Send { k: 0, max: 1 })"),
    (
        "send 99999 16777216",
        "Plan(Send { k: 99999, max: 16777216 })",
    ),
    ("owed 7 8", "Plan(Owed { k: 7, wid: Wid(8) })"),
    ("wait 0", "Plan(Wait { ms: 0 })"),
    ("wait 1000000", "Plan(Wait { ms: 1000000 })"),
    ("turn", "Plan(Turn)"),
];

#[test]
fn each_kind_of_line_is_read(rt: HostRuntime) -> Result<(), Fail> {
    shown_all(&rt, rt.alloc(), KINDS)
}

/// Blanks, ends of lines, comments, and numbers in other spellings.
const LAYOUTS: &[Case] = &[
    // numbers may have zeros before them, and a sign before a zero where one may stand
    (
        "open 0000000001 -0 -0000000000 01 001",
        "Paint(Open { wid: Wid(1), x: 0, y: 0, w: 1, h: 1 })",
    ),
    ("wait 0000000000", "Plan(Wait { ms: 0 })"),
    (
        "open 1 -0000000001 -032768 1 1",
        "Paint(Open { wid: Wid(1), x: -1, y: -32768, w: 1, h: 1 })",
    ),
    // blanks between words and at either end
    ("wait\t1", "Plan(Wait { ms: 1 })"),
    ("  wait \t  1\t", "Plan(Wait { ms: 1 })"),
    ("\tturn", "Plan(Turn)"),
    ("turn ", "Plan(Turn)"),
    // one byte 0x0D at the end of a line, and the last line with its end or without
    ("turn\r\ntake\r\n", "Plan(Turn) / Plan(Take)"),
    ("turn\r", "Plan(Turn)"),
    ("turn \r", "Plan(Turn)"),
    ("turn\n", "Plan(Turn)"),
    ("peer exact\r", "Peer(Join(Exact, Name([])))"),
    ("peer exact u\r\n", "Peer(Join(Exact, Name([117])))"),
    // lines that do nothing
    ("", ""),
    ("\n", ""),
    ("\r", ""),
    (" \t\r\n\t\n", ""),
    ("#", ""),
    ("# open\n#\r\n#\tturn", ""),
    ("#frob\n\nturn\n\n", "Plan(Turn)"),
    // all of it
    (
        "open 1 0 0 3 1\nfill 1 0 0 1 1 0000ff\ncopy 1 0 0 2 1 1 0\nresize 1 2 2\nmove 1 -5 9\nraise 1\npeer exact",
        "Paint(Open { wid: Wid(1), x: 0, y: 0, w: 3, h: 1 }) / Paint(Fill { wid: Wid(1), x: 0, y: 0, w: 1, h: 1, c: Pixel(255) }) / Paint(Copy { wid: Wid(1), x: 0, y: 0, w: 2, h: 1, tx: 1, ty: 0 }) / Paint(Resize { wid: Wid(1), w: 2, h: 2 }) / Paint(Move { wid: Wid(1), x: -5, y: 9 }) / Paint(Raise { wid: Wid(1) }) / Peer(Join(Exact, Name([])))",
    ),
];

#[test]
fn blanks_and_comments_change_nothing(rt: HostRuntime) -> Result<(), Fail> {
    shown_all(&rt, rt.alloc(), LAYOUTS)
}
