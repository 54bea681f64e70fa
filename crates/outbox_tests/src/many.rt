// Very many packets.
use crate::line::Line;
use client_outbox::Out;
use std::alloc::Global;
use std::fmt::Write;
use std::test::Fail;

const MANY: u32 = 100_000;

/// The byte behind this one in the long stream: 0 to 250, over and over.
fn after(byte: u8) -> u8 {
    if byte < 250 { byte + 1 } else { 0 }
}

/// The next five bytes of the long stream.
fn next_five(alloc: Global, next: &mut u8) -> Result<Vec<u8>, Fail> {
    let mut bytes = Vec::new(alloc);
    for _ in 0..5 {
        bytes.push(*next)?;
        *next = after(*next);
    }
    Ok(bytes)
}

/// Puts the packets of five bytes that make the long stream.
fn put_many(line: &mut Line, alloc: Global) -> Result<(), Fail> {
    let mut next = 0;
    for _ in 0..MANY {
        let bytes = next_five(alloc, &mut next)?;
        line.put(alloc, bytes.as_slice())?;
    }
    Ok(())
}

/// Sends so many times one byte: how many sends took one, before the first that did not.
fn send_bytes(line: &mut Line, times: u32) -> u32 {
    for sent in 0..times {
        if line.send(1) != Out::Took(1) {
            return sent;
        }
    }
    times
}

/// Whether these are the first bytes of the long stream.
fn is_stream(bytes: &[u8]) -> bool {
    let mut next = 0;
    for byte in bytes {
        if *byte != next {
            return false;
        }
        next = after(next);
    }
    true
}

/// How many bytes wait; how many of the first hundred packets' go one by one, and how many wait then; how
/// many writes take the others; how many bytes were sent, and whether they are the stream.
fn told_of_many(alloc: Global) -> Result<String, Fail> {
    let mut line = Line::new(alloc, 65_536, &[])?;
    let mut out = String::new(alloc);
    put_many(&mut line, alloc)?;
    let all = line.weight();
    let single = send_bytes(&mut line, 500);
    let left = line.weight();
    let writes = line.send_all(65_536);
    let sent = line.sent().len();
    let same = is_stream(line.sent());
    write!(out, "{all} {single} {left} {writes} {sent} {same}")?;
    Ok(out)
}

#[test]
fn sending_costs_the_same_however_many_packets_wait(rt: HostRuntime) -> Result<(), Fail> {
    let told = told_of_many(rt.alloc())?;
    assert_eq!(rt; told.as_str(), "500000 500 499500 99900 500000 true");
    Ok(())
}
