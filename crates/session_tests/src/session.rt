// The session.

use first_script::{Paints, ScriptRead, read_script};
use link_bay::{Kind, Name, OneBay, Order};
use session_core::{Accepted, Captured, End, How, Painted, Received, Sent, Session};
use std::alloc::Global;
use std::test::Fail;
use xp_base::{Conn, Wid};

/// A call of a session.
#[derive(Clone, Copy, Debug)]
enum Call {
    Paint,
    Accept,
    Receive,
    Capture,
    Send(u32),
    Owes(u32, u32),
}

/// What it answered.
#[derive(Clone, Copy, Debug, PartialEq, Eq)]
enum Told {
    Painted(Painted),
    Accepted(Accepted),
    Received(Received),
    Captured(Captured),
    Sent(Sent),
    Owes(bool),
}

fn made(session: &mut Session<OneBay>, wid: Wid, call: Call) -> Told {
    let c = Conn(0);
    match call {
        Call::Paint => Told::Painted(session.paint()),
        Call::Accept => Told::Accepted(session.accept()),
        Call::Receive => Told::Received(session.receive(c)),
        Call::Capture => Told::Captured(session.capture(c, wid)),
        Call::Send(max) => Told::Sent(session.send(c, max.max(1))),
        Call::Owes(x, y) => Told::Owes(session.owes(c, wid, x, y)),
    }
}

fn paints_of(alloc: Global, text: &[u8]) -> Result<Paints, Fail> {
    match read_script(alloc, text) {
        ScriptRead::Valid(script) => Ok(script.paints(alloc)?),
        _ => Err(Fail::from("no script")),
    }
}

/// A session over a script, with one exact peer ordered.
fn session_of(alloc: Global, text: &[u8]) -> Result<Session<OneBay>, Fail> {
    let paints = paints_of(alloc, text)?;
    match Session::new(alloc, paints, OneBay::new(alloc)) {
        Ok(mut session) => {
            session.order(&Order::Join(Kind::Exact, Name::new(Vec::new(alloc))))?;
            Ok(session)
        }
        Err(_) => Err(Fail::from("no session")),
    }
}

/// A client is shown a window step by step.
const STEPS: &[(Call, Told)] = &[
    (Call::Paint, Told::Painted(Painted::Done)),
    (Call::Receive, Told::Received(Received::Closed)),
    (Call::Accept, Told::Accepted(Accepted::Conn(Conn(0)))),
    (Call::Accept, Told::Accepted(Accepted::Full)),
    (Call::Send(100), Told::Sent(Sent::Idle)),
    (Call::Owes(0, 0), Told::Owes(false)),
    (Call::Receive, Told::Received(Received::Took(39))),
    (Call::Receive, Told::Received(Received::Again)),
    (Call::Owes(1, 1), Told::Owes(true)),
    (Call::Owes(2, 1), Told::Owes(false)),
    (Call::Capture, Told::Captured(Captured::Unmapped)),
    (Call::Send(5), Told::Sent(Sent::Took(5))),
    (Call::Send(100), Told::Sent(Sent::Took(78))),
    (Call::Send(100), Told::Sent(Sent::Took(40))),
    (Call::Send(100), Told::Sent(Sent::Idle)),
    (Call::Receive, Told::Received(Received::Took(38))),
    (Call::Paint, Told::Painted(Painted::Done)),
    (Call::Paint, Told::Painted(Painted::Finished)),
    (Call::Capture, Told::Captured(Captured::Jobs(1))),
    (Call::Capture, Told::Captured(Captured::Clean)),
    (Call::Send(90), Told::Sent(Sent::Took(90))),
    (Call::Owes(0, 0), Told::Owes(true)),
    (Call::Send(90), Told::Sent(Sent::Took(1))),
    (Call::Owes(0, 0), Told::Owes(false)),
];

#[test]
fn a_client_is_shown_a_window_step_by_step(rt: HostRuntime) -> Result<(), Fail> {
    let alloc = rt.alloc();
    let mut session = session_of(alloc, b"open 1 0 0 2 2\nfill 1 0 0 2 2 ff0000\n")?;
    let wid = Wid::new(1).ok_or("a window's number")?;
    for (call, want) in STEPS {
        let told = made(&mut session, wid, *call);
        assert_eq!(rt; told, *want, "{call:?}");
    }
    let calm = session.settle();
    assert_eq!(rt; calm.how, How::Settled);
    assert_eq!(rt; calm.ends.as_slice(), [End::Settled].as_slice());
    Ok(())
}

#[test]
fn a_session_may_be_given_up(rt: HostRuntime) -> Result<(), Fail> {
    let alloc = rt.alloc();
    let mut session = session_of(alloc, b"")?;
    assert_eq!(rt; session.accept(), Accepted::Conn(Conn(0)));
    assert_eq!(rt; session.is_painted(), true);
    let left = session.abandon();
    assert_eq!(rt; left.ends.as_slice(), [End::Unended].as_slice());
    Ok(())
}
