// What a client shows and answers: packets of each kind, and streams that stop.
ghost use Rattle.std.specs.Prelude.{◌≤◌};

use crate::packets::packets;
use client_replay::{Fed, Replay};
use std::alloc::Global;
use std::fmt::Write;
use std::process::Abort;
use std::test::Fail;
use window_model::Win;

const LIMIT: u32 = 67_108_864;

/// Adds a window's number, place, size and pixels.
fn show_window(out: &mut String, window: &Win) -> Result<(), Fail> {
    let (wid, x, y, w, h) = (window.wid.get(), window.x, window.y, window.w, window.h);
    write!(out, "{wid} {x} {y} {w} {h}:")?;
    for pixel in window.pixels.as_slice() {
        let number = pixel.get();
        write!(out, " {number:x}")?;
    }
    out.push_str(", ")?;
    Ok(())
}

/// The windows from bottom to top, and how the last piece was taken.
fn shown(alloc: Global, replay: &Replay, fed: Fed) -> Result<String, Fail> {
    let mut out = String::new(alloc);
    for window in replay.picture().as_slice() {
        show_window(&mut out, window)?;
    }
    write!(out, "{fed:?}")?;
    if fed == Fed::Ok {
        let unread = replay.unread();
        write!(out, " {unread}")?;
    }
    Ok(out)
}

/// Feeds a piece, and takes the replies.
fn feed(replay: &mut Replay, piece: &[u8], said: &mut Vec<u8>) -> Result<Fed, Fail> {
    let fed = replay.feed(piece);
    said.extend_from_slice(replay.replies().as_slice())?;
    Ok(fed)
}

/// Feeds these bytes in pieces of this size; how the last one was taken.
fn feed_all(replay: &mut Replay, bytes: &[u8], size: usize, said: &mut Vec<u8>) -> Result<Fed, Fail>
    requires { 1 ≤ size }
{
    let mut fed = feed(replay, &[], said)?;
    for piece in bytes.chunks(size) {
        fed = feed(replay, piece, said)?;
    }
    Ok(fed)
}

/// Whether these bytes, in pieces of this size, are shown and answered so.
fn check(
    rt: &impl Abort,
    alloc: Global,
    bytes: &[u8],
    size: usize,
    picture: &str,
    answers: &[u8],
) -> Result<(), Fail>
    requires { 1 ≤ size }
{
    let mut replay = Replay::new(alloc, LIMIT);
    let mut said = Vec::new(alloc);
    let fed = feed_all(&mut replay, bytes, size, &mut said)?;
    let found = shown(alloc, &replay, fed)?;
    assert_eq!(rt; found.as_str(), picture, "in pieces of {size}");
    assert!(rt; said.as_slice() == answers, "{picture} in pieces of {size}");
    Ok(())
}

/// The contents of main packets, what a client shows of them, and the contents of its answers.
type Case = (
    &'static [&'static [u8]],
    &'static str,
    &'static [&'static [u8]],
);

/// A window of two pixels, whose packet has 41 bytes.
const WINDOW: &[u8] = b"l10:new-windowi1ei-2ei3ei2ei1edee";

/// The map that answers it.
const MAP: &[u8] = b"l10:map-windowi1ei-2ei3ei2ei1ee";

/// Another window, of one pixel.
const OTHER: &[u8] = b"l10:new-windowi2ei0ei0ei1ei1edee";

const OTHER_MAP: &[u8] = b"l10:map-windowi2ei0ei0ei1ei1ee";

/// Both pixels of the window, blue and green.
const DRAW: &[u8] =
    b"l4:drawi1ei0ei0ei2ei1e5:rgb328:\xff\x00\x00\xff\x00\xff\x00\xffi7ei8ed10:rgb_format4:BGRXee";

const DRAWN: &[u8] = b"l15:damage-sequencei7ei1ei2ei1ei0e0:e";

/// Each kind of packet.
const KINDS: &[Case] = &[
    (&[], "Ok 0", &[]),
    (&[b"l5:hellodee", b"l5:helloe"], "Ok 0", &[]),
    (&[WINDOW], "1 -2 3 2 1: 0 0, Ok 0", &[MAP]),
    // one is on top of the other
    (
        &[WINDOW, OTHER],
        "1 -2 3 2 1: 0 0, 2 0 0 1 1: 0, Ok 0",
        &[MAP, OTHER_MAP],
    ),
    // a number that is there already is answered, and nothing else
    (
        &[WINDOW, DRAW, b"l10:new-windowi1ei0ei0ei1ei1edee"],
        "1 -2 3 2 1: ff ff00, Ok 0",
        &[MAP, DRAWN, b"l10:map-windowi1ei0ei0ei1ei1ee"],
    ),
    (
        &[WINDOW, OTHER, b"l11:lost-windowi1ee"],
        "2 0 0 1 1: 0, Ok 0",
        &[MAP, OTHER_MAP],
    ),
    // what both sizes share stays
    (
        &[WINDOW, DRAW, b"l14:window-resizedi1ei1ei2ee"],
        "1 -2 3 1 2: ff 0, Ok 0",
        &[MAP, DRAWN],
    ),
    (
        &[WINDOW, DRAW, b"l14:window-resizedi1ei3ei2ee"],
        "1 -2 3 3 2: ff ff00 0 0 0 0, Ok 0",
        &[MAP, DRAWN],
    ),
    (
        &[WINDOW, DRAW, b"l18:window-move-resizei1ei5ei-6ei9ei9ee"],
        "1 5 -6 2 1: ff ff00, Ok 0",
        &[MAP, DRAWN],
    ),
    (
        &[WINDOW, OTHER, b"l12:raise-windowi1ee"],
        "2 0 0 1 1: 0, 1 -2 3 2 1: 0 0, Ok 0",
        &[MAP, OTHER_MAP],
    ),
    // pings, words of leave and other packets change nothing
    (
        &[
            b"l9:ping_echoi-5ee",
            b"l10:disconnect3:byee",
            b"l4:pinge",
            WINDOW,
        ],
        "1 -2 3 2 1: 0 0, Ok 0",
        &[MAP],
    ),
    // a packet on a window that is not there does nothing
    (
        &[
            b"l11:lost-windowi9ee",
            b"l14:window-resizedi9ei1ei1ee",
            b"l18:window-move-resizei9ei0ei0ei1ei1ee",
            b"l12:raise-windowi9ee",
        ],
        "Ok 0",
        &[],
    ),
];

#[test]
fn each_kind_of_packet_is_shown_and_answered(rt: HostRuntime) -> Result<(), Fail> {
    check_all(&rt, rt.alloc(), KINDS)
}

/// Draws, and streams that stop.
const DRAWS: &[Case] = &[
    (
        &[
            WINDOW,
            b"l4:drawi1ei1ei0ei1ei1e5:rgb324:\x30\x20\x10\x99i8ei4edee",
        ],
        "1 -2 3 2 1: 0 102030, Ok 0",
        &[MAP, b"l15:damage-sequencei8ei1ei1ei1ei0e0:e"],
    ),
    (
        &[WINDOW, b"l4:drawi1ei0ei0ei1ei1e5:rgb162:\x06\x11i-3ei2edee"],
        "1 -2 3 2 1: 102031 0, Ok 0",
        &[MAP, b"l15:damage-sequencei-3ei1ei1ei1ei0e0:e"],
    ),
    // two rows of two pixels and a byte behind each, of which the first pixel lies in the window
    (
        &[
            WINDOW,
            b"l4:drawi1ei1ei0ei2ei2e5:rgb3218:\x01\x00\x00\x00\x02\x00\x00\x00\x09\x03\x00\x00\x00\x04\x00\x00\x00\x09i8ei9edee",
        ],
        "1 -2 3 2 1: 0 1, Ok 0",
        &[MAP, b"l15:damage-sequencei8ei1ei2ei2ei0e0:e"],
    ),
    // beside the window, below it, and where no window is
    (
        &[
            WINDOW,
            b"l4:drawi1ei2ei0ei1ei1e5:rgb324:\x01\x02\x03\x04i8ei4edee",
            b"l4:drawi1ei0ei1ei1ei1e5:rgb324:\x01\x02\x03\x04i9ei4edee",
            b"l4:drawi9ei0ei0ei1ei1e5:rgb324:\x01\x02\x03\x04i10ei4edee",
        ],
        "1 -2 3 2 1: 0 0, Ok 0",
        &[
            MAP,
            b"l15:damage-sequencei8ei1ei1ei1ei0e0:e",
            b"l15:damage-sequencei9ei1ei1ei1ei0e0:e",
            b"l15:damage-sequencei10ei9ei1ei1ei0e0:e",
        ],
    ),
    // a byte too few, and a row too short, whether or not the window is there
    (
        &[
            WINDOW,
            b"l4:drawi1ei0ei0ei1ei1e5:rgb323:\x01\x02\x03i8ei4edee",
            OTHER,
        ],
        "1 -2 3 2 1: 0 0, Bad(41, Data)",
        &[MAP],
    ),
    (
        &[
            WINDOW,
            b"l4:drawi9ei0ei0ei1ei1e5:rgb161:\x01i8ei1edee",
            DRAW,
        ],
        "1 -2 3 2 1: 0 0, Bad(41, Data)",
        &[MAP],
    ),
    // an item that does not fit, and a content that is cut
    (
        &[WINDOW, b"l12:raise-windowi0ee", OTHER],
        "1 -2 3 2 1: 0 0, Bad(41, Shape(1))",
        &[MAP],
    ),
    (
        &[WINDOW, b"l", OTHER],
        "1 -2 3 2 1: 0 0, Bad(50, Frame(Cut))",
        &[MAP],
    ),
];

#[test]
fn draws_lie_in_their_windows_and_faults_stop_the_picture(rt: HostRuntime) -> Result<(), Fail> {
    check_all(&rt, rt.alloc(), DRAWS)
}

/// Checks each case whole, in pieces of three, and byte by byte.
fn check_all(rt: &impl Abort, alloc: Global, cases: &[Case]) -> Result<(), Fail> {
    for (contents, picture, answers) in cases {
        let bytes = packets(alloc, contents)?;
        let replies = packets(alloc, answers)?;
        check(
            rt,
            alloc,
            bytes.as_slice(),
            100_000,
            picture,
            replies.as_slice(),
        )?;
        check(rt, alloc, bytes.as_slice(), 3, picture, replies.as_slice())?;
        check(rt, alloc, bytes.as_slice(), 1, picture, replies.as_slice())?;
    }
    Ok(())
}

/// The announcement of a window of one pixel, and an exact draw of it, with its bytes as a chunk ahead: 119 bytes.
const STREAM: &[u8] =
    b"\x50\x00\x00\x00\x00\x00\x00\x20l10:new-windowi1ei0ei0ei1ei1edee\x50\x00\x00\x07\x00\x00\x00\x04\x30\x20\x10\xff\x50\x00\x00\x00\x00\x00\x00\x3bl4:drawi1ei0ei0ei1ei1e5:rgb320:i1ei4ed10:rgb_format4:BGRXee";

/// The same with a chunk of three bytes.
const SHORT_CHUNK: &[u8] =
    b"\x50\x00\x00\x00\x00\x00\x00\x20l10:new-windowi1ei0ei0ei1ei1edee\x50\x00\x00\x07\x00\x00\x00\x03\x30\x20\x10\x50\x00\x00\x00\x00\x00\x00\x3bl4:drawi1ei0ei0ei1ei1e5:rgb320:i1ei4ed10:rgb_format4:BGRXee";

/// The map of that window.
const STREAM_MAP: &[u8] = b"\x50\x00\x00\x00\x00\x00\x00\x1el10:map-windowi1ei0ei0ei1ei1ee";

/// That map, and the acknowledgement of the draw.
const STREAM_ANSWERS: &[u8] =
    b"\x50\x00\x00\x00\x00\x00\x00\x1el10:map-windowi1ei0ei0ei1ei1ee\x50\x00\x00\x00\x00\x00\x00\x25l15:damage-sequencei1ei1ei1ei1ei0e0:e";

#[test]
fn a_draw_of_one_pixel_is_shown_once_it_is_whole(rt: HostRuntime) -> Result<(), Fail> {
    let alloc = rt.alloc();
    assert_eq!(rt; STREAM.len(), 119);
    for size in [200, 3, 1] {
        check(
            &rt,
            alloc,
            STREAM,
            size,
            "1 0 0 1 1: 102030, Ok 0",
            STREAM_ANSWERS,
        )?;
        check(
            &rt,
            alloc,
            &STREAM[..118],
            size,
            "1 0 0 1 1: 0, Ok 78",
            STREAM_MAP,
        )?;
        check(
            &rt,
            alloc,
            SHORT_CHUNK,
            size,
            "1 0 0 1 1: 0, Bad(51, Data)",
            STREAM_MAP,
        )?;
    }
    Ok(())
}

/// Feeds byte by byte: whether want of memory, once it was answered, is answered for ever, and the picture stays.
fn stays_short(replay: &mut Replay, bytes: &[u8]) -> bool {
    let mut short = false;
    let mut windows = 0;
    for piece in bytes.chunks(1) {
        let fed = replay.feed(piece);
        if short && (fed != Fed::NoMemory || replay.picture().len() != windows) {
            return false;
        }
        if fed == Fed::NoMemory {
            short = true;
            windows = replay.picture().len();
        }
    }
    true
}

// With ample memory it shows that none is wanted; `rt try --test --fail-alloc N` lets the Nth growth fail.
#[test]
fn want_of_memory_is_answered_for_ever(rt: HostRuntime) {
    let mut replay = Replay::new(rt.alloc(), LIMIT);
    assert!(rt; stays_short(&mut replay, STREAM));
}
