// Clients in memory, played through their provider.
ghost use Rattle.std.specs.Prelude.{◌≤◌, IfOk};

use client_replay::{PeerBay, exact_hello};
use link_bay::{Accept, Bay, Gave, Kind, Name, Order, Wrote};
use std::alloc::Global;
use std::test::Fail;
use xp_base::{Conn, Wid};

/// What is done with the first peer, and what comes of it.
enum Act {
    /// A write of this piece takes so many bytes.
    Takes(&'static [u8], u32),
    /// A read of at most so many bytes gives these.
    Says(u32, &'static [u8]),
    /// A read finds nothing now.
    Waits,
    /// A read meets the end.
    Ends,
    /// Orders for it, with a window's number or with bytes.
    Map(i64),
    Unmap(i64),
    Refresh(i64),
    Say(&'static [u8]),
    Leave,
}

const FIRST: Conn = Conn(0);

/// A provider whose first peer was accepted.
fn joined(alloc: Global, kind: Kind, name: &[u8]) -> Result<PeerBay, Fail>
    ensures { IfOk result (λ bay. 1 ≤ bay.accepted) }
{
    let mut bay = PeerBay::new(alloc);
    let join = Order::Join(kind, Name::new(name.to_vec(alloc)?));
    bay.order(&join)?;
    match bay.accept() {
        Accept::Conn(_c) => Ok(bay),
        Accept::Nobody | Accept::Failed | Accept::NoMemory => Err("nobody was accepted".into()),
    }
}

/// Whether a read of at most so many bytes answers so and gives these.
fn reads(alloc: Global, bay: &mut PeerBay, max: u32, want: Gave, bytes: &[u8]) -> bool
    requires accepted { 1 ≤ bay.old.accepted }
    requires some { 1 ≤ max }
    ensures { 1 ≤ bay.new.accepted }
{
    let mut said = Vec::new(alloc);
    let answer = bay.read(FIRST, &mut said, max);
    answer == want && said.as_slice() == bytes
}

/// Whether a read of at most so many bytes gives these.
fn says(alloc: Global, bay: &mut PeerBay, max: u32, bytes: &[u8]) -> bool
    requires { 1 ≤ bay.old.accepted }
    ensures { 1 ≤ bay.new.accepted }
{
    let Ok(count) = u32::try_from(bytes.len()) else {
        return false;
    };
    reads(alloc, bay, max.max(1), Gave::Bytes(count), bytes)
}

/// Whether a write of this piece takes so many bytes.
fn takes(bay: &mut PeerBay, piece: &[u8], count: u32) -> bool
    requires { 1 ≤ bay.old.accepted }
    ensures { 1 ≤ bay.new.accepted }
{
    bay.write(FIRST, piece) == Wrote::Took(count)
}

/// Whether an order is taken.
fn orders(bay: &mut PeerBay, order: &Order) -> bool
    requires { 1 ≤ bay.old.accepted }
    ensures { 1 ≤ bay.new.accepted }
{
    bay.order(order).is_ok()
}

/// The order of an act, if it is one.
fn order_of(alloc: Global, act: &Act) -> Result<Option<Order>, Fail> {
    let order = match act {
        Act::Map(wid) => Order::Map(FIRST, Wid::new(*wid).ok_or("a window's number")?),
        Act::Unmap(wid) => Order::Unmap(FIRST, Wid::new(*wid).ok_or("a window's number")?),
        Act::Refresh(wid) => Order::Refresh(FIRST, Wid::new(*wid).ok_or("a window's number")?),
        Act::Say(bytes) => Order::Say(FIRST, Name::new(bytes.to_vec(alloc)?)),
        Act::Leave => Order::Leave(FIRST),
        Act::Takes(_, _) | Act::Says(_, _) | Act::Waits | Act::Ends => return Ok(None),
    };
    Ok(Some(order))
}

/// Whether an act goes as it says.
fn goes(alloc: Global, bay: &mut PeerBay, act: &Act) -> Result<bool, Fail>
    requires { 1 ≤ bay.old.accepted }
    ensures { 1 ≤ bay.new.accepted }
{
    if let Some(order) = order_of(alloc, act)? {
        return Ok(orders(bay, &order));
    }
    let went = match act {
        Act::Takes(piece, count) => takes(bay, piece, *count),
        Act::Says(max, bytes) => says(alloc, bay, *max, bytes),
        Act::Waits => reads(alloc, bay, 100, Gave::Again, &[]),
        Act::Ends => reads(alloc, bay, 100, Gave::End, &[]),
        Act::Map(_) | Act::Unmap(_) | Act::Refresh(_) | Act::Say(_) | Act::Leave => false,
    };
    Ok(went)
}

/// How many of these acts go as they say, up to the first that does not.
fn played(alloc: Global, kind: Kind, name: &[u8], acts: &[Act]) -> Result<usize, Fail> {
    let mut bay = joined(alloc, kind, name)?;
    for (place, act) in acts.iter().enumerate() {
        if !goes(alloc, &mut bay, act)? {
            return Ok(place);
        }
    }
    Ok(acts.len())
}

const HELLO: &[u8] = b"\x50\x00\x00\x00\x00\x00\x00\x1fl5:hellod9:encodingsl5:rgb32eee";

const HELLO_OF_U: &[u8] =
    b"\x50\x00\x00\x00\x00\x00\x00\x28l5:hellod9:encodingsl5:rgb32e4:uuid1:uee";

const LOSSY_HELLO: &[u8] =
    b"\x50\x00\x00\x00\x00\x00\x00\x47l5:hellod9:encodingsl5:rgb32e21:encodings.rgb_formatsl4:BGRX6:BGR565eee";

/// A window of one pixel, and the map that answers it.
const WINDOW: &[u8] = b"\x50\x00\x00\x00\x00\x00\x00\x20l10:new-windowi1ei0ei0ei1ei1edee";

const MAP: &[u8] = b"\x50\x00\x00\x00\x00\x00\x00\x1el10:map-windowi1ei0ei0ei1ei1ee";

/// A draw of its pixel in two pieces, and the acknowledgement that answers the second.
const CHUNK: &[u8] = b"\x50\x00\x00\x07\x00\x00\x00\x04\x30\x20\x10\xff";

const DRAW: &[u8] =
    b"\x50\x00\x00\x00\x00\x00\x00\x3bl4:drawi1ei0ei0ei1ei1e5:rgb320:i1ei4ed10:rgb_format4:BGRXee";

const DRAWN: &[u8] = b"\x50\x00\x00\x00\x00\x00\x00\x25l15:damage-sequencei1ei1ei1ei1ei0e0:e";

/// Other packets on it.
const MOVED: &[u8] = b"\x50\x00\x00\x00\x00\x00\x00\x27l18:window-move-resizei1ei5ei-6ei9ei9ee";

const RESIZED: &[u8] = b"\x50\x00\x00\x00\x00\x00\x00\x1cl14:window-resizedi1ei3ei2ee";

/// What the orders make a peer say: a map of the window as it is shown, of one that is not there, and the others.
const MAP_LATER: &[u8] = b"\x50\x00\x00\x00\x00\x00\x00\x1fl10:map-windowi1ei5ei-6ei3ei2ee";

const MAP_OF_NONE: &[u8] = b"\x50\x00\x00\x00\x00\x00\x00\x1el10:map-windowi9ei0ei0ei0ei0ee";

const UNMAP: &[u8] = b"\x50\x00\x00\x00\x00\x00\x00\x14l12:unmap-windowi1ee";

const REFRESH: &[u8] = b"\x50\x00\x00\x00\x00\x00\x00\x16l14:buffer-refreshi1ee";

/// A kind of peer, its uuid or first bytes, and acts.
type Game = (Kind, &'static [u8], &'static [Act]);

const GAMES: &[Game] = &[
    // hello, new window, draw, acknowledgement
    (
        Kind::Exact,
        b"",
        &[
            Act::Says(100, HELLO),
            Act::Waits,
            Act::Takes(WINDOW, 40),
            Act::Says(100, MAP),
            Act::Takes(CHUNK, 12),
            Act::Waits,
            Act::Takes(DRAW, 67),
            Act::Says(100, DRAWN),
            Act::Waits,
        ],
    ),
    // at most so many bytes a read
    (
        Kind::Exact,
        b"u",
        &[
            Act::Says(8, b"\x50\x00\x00\x00\x00\x00\x00\x28"),
            Act::Says(100, b"l5:hellod9:encodingsl5:rgb32e4:uuid1:uee"),
            Act::Waits,
        ],
    ),
    (Kind::Lossy, b"", &[Act::Says(100, LOSSY_HELLO), Act::Waits]),
    // orders
    (
        Kind::Exact,
        b"u",
        &[
            Act::Says(100, HELLO_OF_U),
            Act::Takes(WINDOW, 40),
            Act::Takes(MOVED, 47),
            Act::Takes(RESIZED, 36),
            Act::Says(100, MAP),
            Act::Map(1),
            Act::Says(100, MAP_LATER),
            Act::Map(9),
            Act::Says(100, MAP_OF_NONE),
            Act::Unmap(1),
            Act::Says(100, UNMAP),
            Act::Refresh(1),
            Act::Say(b"abc"),
            Act::Says(30, REFRESH),
            Act::Says(100, b"abc"),
        ],
    ),
    // one that has left hands out what it said before, and nothing more
    (
        Kind::Exact,
        b"",
        &[
            Act::Leave,
            Act::Takes(WINDOW, 40),
            Act::Map(1),
            Act::Say(b"abc"),
            Act::Says(100, HELLO),
            Act::Ends,
            Act::Ends,
        ],
    ),
    // after the first fault nothing is answered, but orders are
    (
        Kind::Exact,
        b"",
        &[
            Act::Says(100, HELLO),
            Act::Takes(b"\x51", 1),
            Act::Takes(WINDOW, 40),
            Act::Waits,
            Act::Unmap(1),
            Act::Says(100, UNMAP),
        ],
    ),
    // a stalling peer takes nothing twice; an empty piece is not counted
    (
        Kind::Dry(2),
        b"",
        &[
            Act::Takes(b"", 0),
            Act::Takes(WINDOW, 0),
            Act::Takes(b"", 0),
            Act::Takes(WINDOW, 0),
            Act::Takes(WINDOW, 40),
            Act::Says(39, HELLO),
            Act::Says(100, MAP),
        ],
    ),
    // a scripted peer says its bytes and answers nothing, but has a picture
    (
        Kind::Hex,
        b"abc",
        &[
            Act::Says(2, b"ab"),
            Act::Says(2, b"c"),
            Act::Takes(WINDOW, 40),
            Act::Waits,
            Act::Map(1),
            Act::Says(100, MAP),
        ],
    ),
];

#[test]
fn peers_go_as_their_kind_says(rt: HostRuntime) -> Result<(), Fail> {
    for (kind, name, acts) in GAMES {
        let went = played(rt.alloc(), *kind, name, acts)?;
        assert_eq!(rt; went, acts.len(), "{kind:?}");
    }
    Ok(())
}

#[test]
fn peers_are_accepted_in_their_order(rt: HostRuntime) -> Result<(), Fail> {
    let alloc = rt.alloc();
    let mut bay = PeerBay::new(alloc);
    assert_eq!(rt; bay.accept(), Accept::Nobody);
    // an order on a peer that is not there does nothing
    bay.order(&Order::Leave(FIRST))?;
    bay.order(&Order::Join(Kind::Exact, Name::new(Vec::new(alloc))))?;
    bay.order(&Order::Join(Kind::Hex, Name::new(b"abc".to_vec(alloc)?)))?;
    assert_eq!(rt; bay.accept(), Accept::Conn(FIRST));
    assert_eq!(rt; bay.accept(), Accept::Conn(Conn(1)));
    assert_eq!(rt; bay.accept(), Accept::Nobody);
    assert!(rt; bay.sent_bytes(Conn(1)).is_empty());
    bay.close(FIRST);
    Ok(())
}

#[test]
fn an_exact_peer_without_a_uuid_says_39_bytes_first(rt: HostRuntime) {
    assert_eq!(rt; exact_hello(), HELLO);
}
