// Providers of connections in memory.
ghost use Rattle.std.specs.Prelude.{◌≡◌, ◌≤◌, IfOk, [], ◌∷◌};
ghost use Rattle.link_bay.specs.Tapes.{tape_of};

use link_bay::{
    Accept, Bay, EXACT_HELLO, Gave, Inbound, Kind, MuteBay, Name, OneBay, Order, PassingBay,
    TapeBay, Wrote,
};
use std::alloc::Global;
use std::test::Fail;
use xp_base::{Conn, Wid};

/// What an exact peer says to the announcement of window 1 at 0 0 of 2 by 2 pixels.
const MAP: &[u8; 38] = b"P\x00\x00\x00\x00\x00\x00\x1el10:map-windowi1ei0ei0ei2ei2ee";

#[test]
fn one_peer_says_hello_once_and_answers_no_chunk(rt: HostRuntime) -> Result<(), Fail> {
    let alloc = rt.alloc();
    let mut bay = PassingBay::new(OneBay::new(alloc));
    assert_eq!(rt; bay.accept(), Accept::Nobody);
    let refused = Order::Join(Kind::Lossy, Name::new(Vec::new(alloc)));
    bay.order(&refused)?;
    assert_eq!(rt; bay.accept(), Accept::Nobody);
    let join = Order::Join(Kind::Exact, Name::new(Vec::new(alloc)));
    bay.order(&join.copy(alloc)?)?;
    bay.order(&join)?;
    assert_eq!(rt; bay.accept(), Accept::Conn(Conn(0)));
    assert_eq!(rt; bay.accept(), Accept::Nobody);
    let mut said = Vec::new(alloc);
    assert_eq!(rt; bay.read(Conn(0), &mut said, 100), Gave::Bytes(39));
    assert_eq!(rt; said.as_slice(), EXACT_HELLO.as_slice());
    assert_eq!(rt; bay.read(Conn(0), &mut said, 100), Gave::Again);
    let chunk = b"P\x00\x00\x07\x00\x00\x00\x20l10:new-windowi1ei0ei0ei2ei2edee";
    assert_eq!(rt; bay.write(Conn(0), chunk), Wrote::Took(40));
    assert_eq!(rt; bay.read(Conn(0), &mut said, 100), Gave::Again);
    Ok(())
}

#[test]
fn an_announcement_is_answered_once_it_is_whole(rt: HostRuntime) -> Result<(), Fail> {
    let alloc = rt.alloc();
    let mut bay = OneBay::new(alloc);
    bay.order(&Order::Join(Kind::Exact, Name::new(Vec::new(alloc))))?;
    assert_eq!(rt; bay.accept(), Accept::Conn(Conn(0)));
    let c = Conn(0);
    let mut said = Vec::new(alloc);
    assert_eq!(rt; bay.read(c, &mut said, 30), Gave::Bytes(30));
    assert_eq!(rt; bay.read(c, &mut said, 30), Gave::Bytes(9));
    assert_eq!(rt; said.as_slice(), EXACT_HELLO.as_slice());
    assert_eq!(rt; bay.read(c, &mut said, 30), Gave::Again);
    let announcement = b"P\x00\x00\x00\x00\x00\x00\x20l10:new-windowi1ei0ei0ei2ei2edee";
    assert_eq!(rt; bay.write(c, &announcement[..39]), Wrote::Took(39));
    assert_eq!(rt; bay.read(c, &mut said, 30), Gave::Again);
    assert_eq!(rt; bay.write(c, &announcement[39..]), Wrote::Took(1));
    let mut map = Vec::new(alloc);
    assert_eq!(rt; bay.read(c, &mut map, 100), Gave::Bytes(38));
    assert_eq!(rt; map.as_slice(), MAP.as_slice());
    assert_eq!(rt; bay.sent_bytes(), announcement.as_slice());
    bay.close(c);
    Ok(())
}

#[test]
fn a_mute_provider_counts_what_takes_nothing(rt: HostRuntime) -> Result<(), Fail> {
    let alloc = rt.alloc();
    let mut bay = MuteBay::new(alloc, 2, 0);
    assert_eq!(rt; bay.accept(), Accept::Conn(Conn(0)));
    assert_eq!(rt; bay.accept(), Accept::Conn(Conn(1)));
    assert_eq!(rt; bay.accept(), Accept::Nobody);
    assert_eq!(rt; bay.write(Conn(1), b"abc"), Wrote::Took(0));
    let mut into = Vec::new(alloc);
    assert_eq!(rt; bay.read(Conn(1), &mut into, 10), Gave::Again);
    let wid = Wid::new(7).ok_or("a window's number")?;
    bay.order(&Order::Map(Conn(0), wid))?;
    Ok(())
}

/// A provider of this one tape, whose accepts with these numbers fail.
fn one_tape(alloc: Global, tape: Inbound, failing: &[u64]) -> Result<TapeBay, Fail>
    requires { 1 ≤ tape.piece }
    ensures { IfOk result (λ bay. (bay.waiting ≡ tape_of tape ∷ []) × (bay.played ≡ [])) }
{
    let mut tapes = Vec::new(alloc);
    tapes.push(tape)?;
    Ok(TapeBay::new(tapes, failing.to_vec(alloc)?))
}

#[test]
fn a_tape_is_handed_out_piece_by_piece_and_then_ends(rt: HostRuntime) -> Result<(), Fail> {
    let alloc = rt.alloc();
    let tape = Inbound {
        bytes: b"abcdefgh".to_vec(alloc)?,
        ends: true,
        piece: 4,
        quota: 3,
        failing_reads: [2].as_slice().to_vec(alloc)?,
        failing_writes: [1].as_slice().to_vec(alloc)?,
    };
    let mut bay = one_tape(alloc, tape, &[])?;
    assert_eq!(rt; bay.accept(), Accept::Conn(Conn(0)));
    let mut said = Vec::new(alloc);
    assert_eq!(rt; bay.read(Conn(0), &mut said, 3), Gave::Bytes(3));
    assert_eq!(rt; bay.read(Conn(0), &mut said, 3), Gave::Failed);
    assert_eq!(rt; bay.read(Conn(0), &mut said, 10), Gave::Bytes(4));
    assert_eq!(rt; bay.read(Conn(0), &mut said, 10), Gave::Bytes(1));
    assert_eq!(rt; bay.read(Conn(0), &mut said, 10), Gave::End);
    assert_eq!(rt; bay.read(Conn(0), &mut said, 10), Gave::End);
    assert_eq!(rt; said.as_slice(), b"abcdefgh".as_slice());
    assert_eq!(rt; bay.write(Conn(0), b"wxyz"), Wrote::Failed);
    assert_eq!(rt; bay.write(Conn(0), b"wxyz"), Wrote::Took(3));
    assert_eq!(rt; bay.write(Conn(0), b"wxyz"), Wrote::Took(3));
    assert_eq!(rt; bay.sent_bytes(Conn(0)), b"wxywxy".as_slice());
    bay.close(Conn(0));
    Ok(())
}

#[test]
fn an_accept_fails_where_it_is_listed(rt: HostRuntime) -> Result<(), Fail> {
    let alloc = rt.alloc();
    let silent = Inbound {
        bytes: Vec::new(alloc),
        ends: false,
        piece: 1,
        quota: 0,
        failing_reads: Vec::new(alloc),
        failing_writes: Vec::new(alloc),
    };
    let mut bay = PassingBay::new(one_tape(alloc, silent, &[1])?);
    assert_eq!(rt; bay.accept(), Accept::Failed);
    assert_eq!(rt; bay.accept(), Accept::Conn(Conn(0)));
    assert_eq!(rt; bay.accept(), Accept::Nobody);
    let mut said = Vec::new(alloc);
    assert_eq!(rt; bay.read(Conn(0), &mut said, 10), Gave::Again);
    assert_eq!(rt; bay.write(Conn(0), b"abc"), Wrote::Took(0));
    bay.order(&Order::Leave(Conn(0)))?;
    assert_eq!(rt; bay.accept(), Accept::Nobody);
    bay.close(Conn(0));
    bay.close(Conn(0));
    assert_eq!(rt; bay.closes(), [2, 0, 0, 0]);
    let inner = bay.into_inner();
    assert_eq!(rt; inner.sent_bytes(Conn(0)), b"".as_slice());
    Ok(())
}
