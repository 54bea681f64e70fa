use crate::calls::{Outcome, top};
use crate::dry_bay::DryBay;
use first_script::{Script, ScriptRead, read_script};
use link_bay::{Kind, MuteBay, Name, OneBay, Order, PassingBay, TapeBay};
use session_core::{Accepted, End, Session};
use std::alloc::Global;
use std::test::Fail;
use xp_base::{MemSink, MemSource};

/// The words of a call, cut at blanks.
fn words_of(alloc: Global, text: &str) -> Result<Vec<String>, Fail> {
    let mut words = Vec::new(alloc);
    for word in text.split_whitespace() {
        words.push(String::from_str(alloc, word)?)?;
    }
    Ok(words)
}

fn numbers(alloc: Global, list: &[u64]) -> Result<Vec<u64>, Fail> {
    Ok(list.to_vec(alloc)?)
}

/// What a script prints, and its status.
fn played(
    alloc: Global,
    words: &str,
    script: &[u8],
    out: &mut MemSink,
) -> Result<Outcome<OneBay>, Fail> {
    let words = words_of(alloc, words)?;
    let mut input = MemSource::new(script.to_vec(alloc)?, numbers(alloc, &[])?);
    Ok(top(&words, &mut input, out, OneBay::new(alloc)))
}

#[test]
fn scripts_print_their_reports_and_faults(rt: HostRuntime) -> Result<(), Fail> {
    let alloc = rt.alloc();
    let table: [(&str, &[u8], u8, &[u8]); 12] = [
        ("play", b"", 0, b"windows 0\n"),
        (
            "play",
            b"open 1 0 0 2 2\nfill 1 0 0 2 2 ff0000\npeer exact\n",
            0,
            b"windows 1\nwindow 1 0 0 2 2 66846720\nclient 0 settled\n",
        ),
        ("play", b"peer exact", 0, b"windows 0\nclient 0 settled\n"),
        (
            "play",
            b"peer exact\nopen 7 5 6 3 2\nfill 7 1 1 2 1 0000ff\n",
            0,
            b"windows 1\nwindow 7 5 6 3 2 510\nclient 0 settled\n",
        ),
        (
            "play",
            b"open 65535 32767 0 1 4096\n",
            0,
            b"windows 1\nwindow 65535 32767 0 1 4096 0\n",
        ),
        ("play", b"close 1", 2, b"script line 1: unbuilt\n"),
        (
            "play",
            b"open 1 0 0 2 2\nfill 1 1 0 2 1 ff0000\n",
            2,
            b"script line 2: unbuilt\n",
        ),
        (
            "play",
            b"peer exact\n\npeer exact\n",
            2,
            b"script line 2: unbuilt\n",
        ),
        (
            "",
            b"",
            1,
            b"usage: xpra_server play | replay | gen N | crowd N | serve ADDR | view ADDR\n",
        ),
        (
            "play play",
            b"",
            1,
            b"usage: xpra_server play | replay | gen N | crowd N | serve ADDR | view ADDR\n",
        ),
        (
            "--help",
            b"",
            1,
            b"usage: xpra_server play | replay | gen N | crowd N | serve ADDR | view ADDR\n",
        ),
        (
            "replay",
            b"",
            1,
            b"usage: xpra_server play | replay | gen N | crowd N | serve ADDR | view ADDR\n",
        ),
    ];
    for (words, script, status, printed) in table {
        let mut out = MemSink::new(alloc, numbers(alloc, &[])?);
        let outcome = played(alloc, words, script, &mut out)?;
        assert_eq!(rt; outcome.status, status, "{words}");
        assert_eq!(rt; out.bytes(), printed, "{words}");
    }
    Ok(())
}

#[test]
fn an_input_past_its_limit_is_refused_at_line_0(rt: HostRuntime) -> Result<(), Fail> {
    let alloc = rt.alloc();
    for (size, printed) in [
        (65_537, b"script line 0: unbuilt\n"),
        (65_536, b"script line 1: unbuilt\n"),
    ] {
        let script = vec![in alloc; b'a'; size]?;
        let mut out = MemSink::new(alloc, numbers(alloc, &[])?);
        let outcome = played(alloc, "play", script.as_slice(), &mut out)?;
        assert_eq!(rt; outcome.status, 2);
        assert_eq!(rt; out.bytes(), printed.as_slice());
    }
    Ok(())
}

#[test]
fn a_fault_of_the_input_or_the_output_is_told_by_the_status(rt: HostRuntime) -> Result<(), Fail> {
    let alloc = rt.alloc();
    let words = words_of(alloc, "play")?;
    let mut input = MemSource::new(Vec::new(alloc), numbers(alloc, &[1])?);
    let mut out = MemSink::new(alloc, numbers(alloc, &[])?);
    let outcome = top(&words, &mut input, &mut out, OneBay::new(alloc));
    assert_eq!(rt; outcome.status, 3);
    assert_eq!(rt; out.bytes(), b"".as_slice());
    let mut failing = MemSink::new(alloc, numbers(alloc, &[1])?);
    let outcome = played(alloc, "play", b"peer exact\n", &mut failing)?;
    assert_eq!(rt; outcome.status, 4);
    assert_eq!(rt; outcome.ends.as_slice(), [End::Settled].as_slice());
    assert_eq!(rt; failing.bytes(), b"".as_slice());
    Ok(())
}

#[test]
fn a_second_read_of_the_input_may_fail(rt: HostRuntime) -> Result<(), Fail> {
    let alloc = rt.alloc();
    let words = words_of(alloc, "play")?;
    let script = b"open 1 0 0 2 2\n".to_vec(alloc)?;
    let mut input = MemSource::new(script, numbers(alloc, &[2])?);
    let mut out = MemSink::new(alloc, numbers(alloc, &[])?);
    let outcome = top(&words, &mut input, &mut out, OneBay::new(alloc));
    assert_eq!(rt; outcome.status, 3);
    Ok(())
}

#[test]
fn a_provider_that_tells_nothing_serves_as_well(rt: HostRuntime) -> Result<(), Fail> {
    let alloc = rt.alloc();
    let words = words_of(alloc, "play")?;
    let mut input = MemSource::new(b"open 1 0 0 1 1\n".to_vec(alloc)?, numbers(alloc, &[])?);
    let mut out = MemSink::new(alloc, numbers(alloc, &[])?);
    let outcome = top(&words, &mut input, &mut out, MuteBay::new(alloc, 1, 100));
    assert_eq!(rt; outcome.status, 0);
    assert_eq!(rt;
        out.bytes(),
        b"windows 1\nwindow 1 0 0 1 1 0\nclient 0 unbuilt\n".as_slice()
    );
    Ok(())
}

/// What the client of the red square is sent: the server's hello, the window's announcement, and the draw
/// of its four pixels with the sequence number 1.
const SENT: &[u8; 214] =
    b"P\x00\x00\x00\x00\x00\x00\x4bl5:hellod7:bencodei1e9:encodingsl5:rgb32e3:lz4i0e7:rencodei0e7:version1:1eeP\x00\x00\x00\x00\x00\x00\x20l10:new-windowi1ei0ei0ei2ei2edeeP\x00\x00\x07\x00\x00\x00\x10\x00\x00\xff\xff\x00\x00\xff\xff\x00\x00\xff\xff\x00\x00\xff\xffP\x00\x00\x00\x00\x00\x00\x3bl4:drawi1ei0ei0ei2ei2e5:rgb320:i1ei8ed10:rgb_format4:BGRXee";

#[test]
fn a_client_is_sent_hello_window_and_draw(rt: HostRuntime) -> Result<(), Fail> {
    let alloc = rt.alloc();
    let mut out = MemSink::new(alloc, numbers(alloc, &[])?);
    let script = b"open 1 0 0 2 2\nfill 1 0 0 2 2 ff0000\npeer exact\n";
    let left = played(alloc, "play", script, &mut out)?;
    assert_eq!(rt; left.status, 0);
    assert_eq!(rt; left.bay.sent_bytes(), SENT.as_slice());
    Ok(())
}

#[test]
fn each_connection_is_closed_once_at_the_end_of_a_run(rt: HostRuntime) -> Result<(), Fail> {
    let alloc = rt.alloc();
    let words = words_of(alloc, "play")?;
    for (script, closes) in [
        (b"open 1 0 0 1 1\npeer exact\n".as_slice(), 1),
        (b"peer exact\n".as_slice(), 1),
        (b"open 1 0 0 1 1\n".as_slice(), 0),
    ] {
        let mut input = MemSource::new(script.to_vec(alloc)?, numbers(alloc, &[])?);
        let mut out = MemSink::new(alloc, numbers(alloc, &[])?);
        let bay = PassingBay::new(OneBay::new(alloc));
        let outcome = top(&words, &mut input, &mut out, bay);
        assert_eq!(rt; outcome.status, 0);
        assert_eq!(rt; outcome.bay.closes(), [closes, 0, 0, 0]);
    }
    let mut input = MemSource::new(Vec::new(alloc), numbers(alloc, &[])?);
    let mut out = MemSink::new(alloc, numbers(alloc, &[])?);
    let bay = PassingBay::new(MuteBay::new(alloc, 2, 10));
    let outcome = top(&words, &mut input, &mut out, bay);
    assert_eq!(rt; outcome.status, 0);
    assert_eq!(rt;
        outcome.ends.as_slice(),
        [End::Unbuilt, End::Unbuilt].as_slice()
    );
    assert_eq!(rt; outcome.bay.closes(), [1, 1, 0, 0]);
    Ok(())
}

/// The script that a text is.
fn script_of(alloc: Global, text: &[u8]) -> Result<Script, Fail> {
    match read_script(alloc, text) {
        ScriptRead::Valid(script) => Ok(script),
        _ => Err("no script".into()),
    }
}

#[test]
fn a_session_that_is_abandoned_closes_its_connections_once(rt: HostRuntime) -> Result<(), Fail> {
    let alloc = rt.alloc();
    let script = script_of(alloc, b"peer exact\n")?;
    let bay = PassingBay::new(OneBay::new(alloc));
    let Ok(mut session) = Session::new(alloc, script.paints(alloc)?, bay) else {
        return Err("no session".into());
    };
    session.order(&Order::Join(Kind::Exact, Name::new(Vec::new(alloc))))?;
    let Accepted::Conn(_) = session.accept() else {
        return Err("nobody".into());
    };
    let left = session.abandon();
    assert_eq!(rt; left.ends.as_slice(), [End::Unended].as_slice());
    assert_eq!(rt; left.bay.closes(), [1, 0, 0, 0]);
    Ok(())
}

#[test]
fn a_client_is_given_up_at_the_thousandth_write_that_takes_nothing(
    rt: HostRuntime,
) -> Result<(), Fail> {
    let alloc = rt.alloc();
    let words = words_of(alloc, "play")?;
    for (dry, end) in [(999, End::Settled), (1_000, End::Unbuilt)] {
        let mut input = MemSource::new(b"peer exact\n".to_vec(alloc)?, numbers(alloc, &[])?);
        let mut out = MemSink::new(alloc, numbers(alloc, &[])?);
        let outcome = top(&words, &mut input, &mut out, DryBay::new(dry));
        assert_eq!(rt; outcome.status, 0);
        assert_eq!(rt; outcome.ends.as_slice(), [end].as_slice());
        assert_eq!(rt; outcome.bay.counts.dry, u64::from(dry));
    }
    Ok(())
}

#[test]
fn the_text_goes_out_in_one_piece(rt: HostRuntime) -> Result<(), Fail> {
    let alloc = rt.alloc();
    for (words, script, status) in [
        ("play", b"open 1 0 0 1 1\npeer exact\n".as_slice(), 0),
        ("play", b"close 1\n".as_slice(), 2),
        ("crowd", b"".as_slice(), 1),
    ] {
        let mut out = MemSink::new(alloc, numbers(alloc, &[2])?);
        let outcome = played(alloc, words, script, &mut out)?;
        assert_eq!(rt; outcome.status, status);
    }
    Ok(())
}

#[test]
fn a_failed_accept_leaves_no_text(rt: HostRuntime) -> Result<(), Fail> {
    let alloc = rt.alloc();
    let words = words_of(alloc, "play")?;
    let mut input = MemSource::new(b"peer exact\n".to_vec(alloc)?, numbers(alloc, &[])?);
    let mut out = MemSink::new(alloc, numbers(alloc, &[])?);
    let bay = TapeBay::new(Vec::new(alloc), numbers(alloc, &[1])?);
    let outcome = top(&words, &mut input, &mut out, bay);
    assert_eq!(rt; outcome.status, 6);
    assert_eq!(rt; out.bytes(), b"".as_slice());
    Ok(())
}
