use first_script::{Line, Paint, ScriptFault, ScriptRead, Why, read_script};
use link_bay::{Kind, Order};
use std::alloc::Global;
use std::test::*;

/// The number of lines that are read, or the fault's line.
fn outcome(alloc: Global, text: &[u8]) -> Result<Result<usize, u32>, Fail> {
    match read_script(alloc, text) {
        ScriptRead::Valid(script) => Ok(Ok(script.lines().len())),
        ScriptRead::Fault(
            ScriptFault {
                line,
                why: Why::Unbuilt,
            },
        ) => Ok(Err(line)),
        ScriptRead::NoMemory => Err("out of memory".into()),
    }
}

#[test]
fn a_red_square(rt: HostRuntime) -> Result<(), Fail> {
    let text = b"open 1 0 0 2 2\nfill 1 0 0 2 2 ff0000\npeer exact\n";
    let ScriptRead::Valid(script) = read_script(rt.alloc(), text) else {
        return Err("it is a script".into());
    };
    assert_eq!(rt; script.lines().len(), 3);
    assert!(rt;
        matches!(&script.lines()[2], Line::Peer(Order::Join(Kind::Exact, name)) if name.as_slice().is_empty())
    );
    let paints = script.paints(rt.alloc())?;
    assert_eq!(rt; paints.len(), 2);
    assert_eq!(rt; paints.as_slice().len(), 2);
    match paints.line(0) {
        Some(Paint::Open { wid, x, y, w, h }) => {
            assert_eq!(rt; (wid.get(), *x, *y, *w, *h), (1, 0, 0, 2, 2));
        }
        _ => return Err("the first line opens".into()),
    }
    match paints.line(1) {
        Some(Paint::Fill { wid, x, y, w, h, c }) => {
            assert_eq!(rt; (wid.get(), *x, *y, *w, *h), (1, 0, 0, 2, 2));
            assert_eq!(rt; c.get(), 16_711_680);
        }
        _ => return Err("the second line fills".into()),
    }
    assert!(rt; paints.line(2).is_none());
    Ok(())
}

#[test]
fn texts(rt: HostRuntime) -> Result<(), Fail> {
    let cases: [(&[u8], Result<usize, u32>); 31] = [
        (b"", Ok(0)),
        (b"peer exact", Ok(1)),
        (b"peer exact\n", Ok(1)),
        (b"\n", Err(1)),
        (b"peer exact\n\n", Err(2)),
        (b"peer exact\r\n", Err(1)),
        (b" peer exact", Err(1)),
        (b"peer  exact", Err(1)),
        (b"peer exact ", Err(1)),
        (b"peer\texact", Err(1)),
        (b"peer lossy", Err(1)),
        (b"peer exact u", Err(1)),
        (b"# peer exact", Err(1)),
        (b"close 1", Err(1)),
        (b"open 1 0 0 2 2\nclose 1\n", Err(2)),
        (b"open 0000000001 00 0000 002 2", Ok(1)),
        (b"open 00000000001 0 0 2 2", Err(1)),
        (b"open 0 0 0 2 2", Err(1)),
        (b"open 65535 32767 32767 1 4096", Ok(1)),
        (b"open 65536 0 0 2 2", Err(1)),
        (b"open 1 32768 0 2 2", Err(1)),
        (b"open 1 -1 0 2 2", Err(1)),
        (b"open 1 +1 0 2 2", Err(1)),
        (b"open 1 0 0 0 2", Err(1)),
        (b"open 1 0 0 4097 1", Err(1)),
        (b"open 1 0 0 2048 2048", Ok(1)),
        (b"open 1 0 0 4096 1025", Err(1)),
        (b"open 1 0 0 2 2\nfill 1 0 0 2 2 aBcDeF", Ok(2)),
        (b"open 1 0 0 2 2\nfill 1 1 1 2 1 abcdef", Err(2)),
        (b"open 1 0 0 2 2\nopen 2 0 0 2 2", Err(2)),
        (b"peer exact\npeer exact", Err(2)),
    ];
    for (text, wanted) in &cases {
        assert_eq!(rt; outcome(rt.alloc(), text)?, *wanted);
    }
    Ok(())
}

#[test]
fn fills(rt: HostRuntime) -> Result<(), Fail> {
    let cases: [(&[u8], Result<usize, u32>); 9] = [
        (b"fill 1 0 0 1 1 000000", Err(1)),
        (b"open 1 0 0 3 2\nfill 2 0 0 1 1 000000", Err(2)),
        (b"open 1 0 0 3 2\nfill 1 0 0 3 2 000000", Ok(2)),
        (b"open 1 0 0 3 2\nfill 1 0 0 4 2 000000", Err(2)),
        (b"open 1 0 0 3 2\nfill 1 0 0 3 3 000000", Err(2)),
        (b"open 1 0 0 3 2\nfill 1 2 1 1 1 00000", Err(2)),
        (b"open 1 0 0 3 2\nfill 1 2 1 1 1 0000000", Err(2)),
        (b"open 1 0 0 3 2\nfill 1 2 1 1 1 00000g", Err(2)),
        (b"open 1 0 0 3 2\nfill 1 2 1 1 1", Err(2)),
    ];
    for (text, wanted) in &cases {
        assert_eq!(rt; outcome(rt.alloc(), text)?, *wanted);
    }
    Ok(())
}

/// A window and 2,978 fills are a script of 65,536 bytes. One byte more is too much.
#[test]
fn long_texts(rt: HostRuntime) -> Result<(), Fail> {
    let mut text = Vec::new(rt.alloc());
    text.extend_from_slice(b"open 000001 0 0 1 1\n")?;
    for _ in 0..2978 {
        text.extend_from_slice(b"fill 1 0 0 1 1 abcdef\n")?;
    }
    assert_eq!(rt; text.len(), 65_536);
    assert_eq!(rt; outcome(rt.alloc(), text.as_slice())?, Ok(2979));
    text.push(b'\n')?;
    assert_eq!(rt; outcome(rt.alloc(), text.as_slice())?, Err(0));
    Ok(())
}
