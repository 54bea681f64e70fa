// Frames: the packets of streams in pieces, and packets as they are written.
ghost use Rattle.std.specs.Prelude.{◌≡◌, ◌≤◌, [], ◌∷◌, IfOk};
ghost use Rattle.bencode_values.specs.declared.value.Value.TheVariants as V;

use bencode_values::{Items, Value, limits_by_form, spelling_by_form};
use packet_frames::{Chunk, Framer, Next, a_chunk_is_put_in_by_form, read_pieces, write_packet};
use std::alloc::Global;
use std::fmt::Write;
use std::test::Fail;
use xp_base::Bytes;

/// An item, without what is in a list or a dictionary.
fn show_item(out: &mut String, item: &Value) -> Result<(), Fail> {
    match item {
        Value::Int(number) => write!(out, "i{number}")?,
        Value::Bytes(text) => {
            let bytes = text.as_slice();
            write!(out, "{bytes:?}")?;
        }
        Value::List(_items) => out.push_str("list")?,
        Value::Dict(_pairs) => out.push_str("dictionary")?,
    }
    Ok(())
}

/// A value, with the items of a list.
fn show(out: &mut String, value: &Value) -> Result<(), Fail> {
    if let Value::List(items) = value {
        out.push_str("l")?;
        for item in items.as_slice() {
            show_item(out, item)?;
            out.push_str(" ")?;
        }
        out.push_str("e")?;
        return Ok(());
    }
    show_item(out, value)
}

/// Takes all packets that are there, each with its place; says whether a fault came.
fn take(framer: &mut Framer, out: &mut String) -> Result<bool, Fail> {
    for _ in 0..100 {
        match framer.next() {
            Next::Packet(place, value) => {
                write!(out, "{place} ")?;
                show(out, &value)?;
                out.push_str(", ")?;
            }
            Next::Need => return Ok(false),
            Next::Bad(place, fault) => {
                write!(out, "{place} {fault:?}")?;
                return Ok(true);
            }
            Next::NoMemory => return Err("no memory".into()),
        }
    }
    Err("too many packets".into())
}

/// What a framer with this limit answers where the bytes come in pieces of this size.
fn told(alloc: Global, limit: u32, bytes: &[u8], size: usize) -> Result<String, Fail>
    requires { 1 ≤ size }
{
    let mut framer = Framer::new(alloc, limit);
    let mut out = String::new(alloc);
    let mut bad = take(&mut framer, &mut out)?;
    for piece in bytes.chunks(size) {
        framer.feed(piece)?;
        if !bad {
            bad = take(&mut framer, &mut out)?;
        }
    }
    if bad {
        let mut again = String::new(alloc);
        take(&mut framer, &mut again)?;
        if !out.as_str().ends_with(again.as_str()) {
            return Err("another fault".into());
        }
        return Ok(out);
    }
    let unread = framer.unread();
    write!(out, "{unread} unread")?;
    Ok(out)
}

const ONE_MIB: u32 = 1_048_576;

/// Bytes, and what a framer answers to them.
const STREAMS: &[(&[u8], &str)] = &[
    (b"\x50\x00\x01", "2 Level(1)"),
    (b"\x50\x10", "1 Flags(16)"),
    (b"\x51", "0 Magic"),
    (b"\x50\x08\x00\x00\x00\x00\x00\x02le", "0 le, 0 unread"),
    (b"\x50\x00\x00\x00\x00\x10\x00\x01", "4 Size(1048577)"),
    (
        b"\x50\x00\x00\x01\x00\x00\x00\x01a\x50\x00\x00\x00\x00\x00\x00\x05l1:ae",
        "3 Chunk(1)",
    ),
    (b"", "0 unread"),
    // the size is judged with its last byte, a packet that is not whole waits
    (b"\x50\x00\x00\x00\x00\x10\x00", "7 unread"),
    (b"\x50\x00\x00\x00\x00\x10\x00\x00l", "9 unread"),
    // two packets and a part of a third
    (
        b"\x50\x00\x00\x00\x00\x00\x00\x02le\x50\x00\x00\x00\x00\x00\x00\x03i1e\x50\x00\x00",
        "0 le, 10 i1, 3 unread",
    ),
    // a chunk's bytes stand in the place of the empty string
    (
        b"\x50\x00\x00\x01\x00\x00\x00\x03\x07\x08\x09\x50\x00\x00\x00\x00\x00\x00\x07l1:a0:e",
        "11 l[97] [7, 8, 9] e, 0 unread",
    ),
    // two chunks, in the other order; one of them is empty
    (
        b"\x50\x00\x00\x02\x00\x00\x00\x01z\x50\x00\x00\x01\x00\x00\x00\x00\x50\x00\x00\x00\x00\x00\x00\x08l0:0:0:e",
        "17 l[] [] [122] e, 0 unread",
    ),
    (
        b"\x50\x00\x00\x01\x00\x00\x00\x01z\x50\x00\x00\x02\x00\x00\x00\x01y\x50\x00\x00\x00\x00\x00\x00\x08l0:0:0:e",
        "18 l[] [122] [121] e, 0 unread",
    ),
    // a second time the same index; a fifth chunk
    (
        b"\x50\x00\x00\x01\x00\x00\x00\x00\x50\x00\x00\x01",
        "11 Chunk(1)",
    ),
    (
        b"\x50\x00\x00\x01\x00\x00\x00\x00\x50\x00\x00\x02\x00\x00\x00\x00\x50\x00\x00\x03\x00\x00\x00\x00\x50\x00\x00\x04\x00\x00\x00\x00\x50\x00\x00\x05",
        "35 Chunk(5)",
    ),
    // contents that are no value
    (b"\x50\x00\x00\x00\x00\x00\x00\x02lx", "9 Payload(Letter)"),
    (b"\x50\x00\x00\x00\x00\x00\x00\x01l", "9 Cut"),
    (b"\x50\x00\x00\x00\x00\x00\x00\x00", "8 Cut"),
    (b"\x50\x00\x00\x00\x00\x00\x00\x03lel", "10 Extra"),
    // chunks for a value that is no list, and for an item that is not there; a packet before
    (
        b"\x50\x00\x00\x00\x00\x00\x00\x02le\x50\x00\x00\x01\x00\x00\x00\x00\x50\x00\x00\x00\x00\x00\x00\x020:",
        "0 le, 13 Chunk(1)",
    ),
    (
        b"\x50\x00\x00\x01\x00\x00\x00\x01z\x50\x00\x00\x02\x00\x00\x00\x00\x50\x00\x00\x00\x00\x00\x00\x06l0:0:e",
        "12 Chunk(2)",
    ),
    // behind a fault nothing is read
    (b"\x51\x50\x00\x00\x00\x00\x00\x00\x02le", "0 Magic"),
];

#[test]
fn the_packets_are_the_same_in_any_pieces(rt: HostRuntime) -> Result<(), Fail> {
    for (bytes, want) in STREAMS {
        for size in [1, 3, 1000] {
            let answer = told(rt.alloc(), ONE_MIB, bytes, size)?;
            assert_eq!(rt; answer.as_str(), *want, "in pieces of {size}");
        }
    }
    Ok(())
}

/// A chunk of seven bytes and its packet.
const SEVEN: &[u8] =
    b"\x50\x00\x00\x01\x00\x00\x00\x07abcdefg\x50\x00\x00\x00\x00\x00\x00\x06l0:0:e";

/// Limits, and what a framer answers to those.
const LIMITS: &[(u32, &str)] = &[
    (7, "15 l[] [97, 98, 99, 100, 101, 102, 103] e, 0 unread"),
    (6, "4 Size(7)"),
];

#[test]
fn the_limit_counts_each_content(rt: HostRuntime) -> Result<(), Fail> {
    for (limit, want) in LIMITS {
        let answer = told(rt.alloc(), *limit, SEVEN, 2)?;
        assert_eq!(rt; answer.as_str(), *want, "with the limit {limit}");
    }
    Ok(())
}

/// A list of two empty strings.
fn two_empty_strings(alloc: Global) -> Result<Value, Fail>
    ensures { IfOk result (λ value. value ≡ V.List (V.Bytes [] ∷ V.Bytes [] ∷ [])) }
{
    let mut items = Items::new(alloc);
    items.push(Value::Bytes(Bytes::new(Vec::new(alloc))))?;
    items.push(Value::Bytes(Bytes::new(Vec::new(alloc))))?;
    Ok(Value::List(items))
}

/// Writes that list with three bytes for its second item.
fn write_two(alloc: Global) -> Result<Vec<u8>, Fail> {
    // What may be written, by the forms of its parts.
    limits_by_form();
    spelling_by_form();
    a_chunk_is_put_in_by_form();
    let value = two_empty_strings(alloc)?;
    let chunk = Chunk {
        index: 1,
        bytes: Vec::from_slice(alloc, &[7, 8, 9])?,
    };
    let bytes = write_packet(alloc, &value, Some(chunk))?;
    Ok(bytes)
}

/// Writes an empty list.
fn write_empty(alloc: Global) -> Result<Vec<u8>, Fail> {
    // What may be written, by the forms of its parts.
    limits_by_form();
    spelling_by_form();
    let value = Value::List(Items::new(alloc));
    let bytes = write_packet(alloc, &value, None)?;
    Ok(bytes)
}

#[test]
fn packets_are_written_as_they_are_read(rt: HostRuntime) -> Result<(), Fail> {
    let empty = write_empty(rt.alloc())?;
    assert_eq!(rt;
        empty.as_slice(),
        b"\x50\x00\x00\x00\x00\x00\x00\x02le".as_slice()
    );
    let two = write_two(rt.alloc())?;
    let want =
        b"\x50\x00\x00\x01\x00\x00\x00\x03\x07\x08\x09\x50\x00\x00\x00\x00\x00\x00\x06l0:0:e";
    assert_eq!(rt; two.as_slice(), want.as_slice());
    let answer = told(rt.alloc(), ONE_MIB, two.as_slice(), 1)?;
    assert_eq!(rt; answer.as_str(), "11 l[] [7, 8, 9] e, 0 unread");
    Ok(())
}

/// What a stream holds that comes in these pieces: the places of its packets, and its fault or how many bytes are left.
fn held(alloc: Global, pieces: &[&[u8]]) -> Result<String, Fail> {
    let mut list = Vec::new(alloc);
    for piece in pieces {
        list.push(Bytes::new(Vec::from_slice(alloc, piece)?))?;
    }
    let held = read_pieces(alloc, ONE_MIB, list.as_slice())?;
    let mut out = String::new(alloc);
    for packet in held.packets.as_slice() {
        let place = packet.0;
        write!(out, "{place} ")?;
    }
    match held.fault {
        Some((place, fault)) => write!(out, "{place} {fault:?}")?,
        None => {
            let unread = held.unread;
            write!(out, "{unread} unread")?;
        }
    }
    Ok(out)
}

/// Streams in pieces, and what they hold.
const PIECES: &[(&[&[u8]], &str)] = &[
    (
        &[
            b"\x50\x00\x00\x00",
            b"\x00\x00\x00\x02",
            b"le\x50\x00",
            b"\x00\x00\x00\x00",
            b"\x00\x03i1",
            b"e\x50\x00",
        ],
        "0 10 2 unread",
    ),
    (
        &[
            b"\x50\x00\x00\x00\x00\x00\x00\x02le\x50\x00\x00\x00\x00\x00\x00\x03i1e\x50\x00",
            b"\x01le",
        ],
        "0 10 23 Level(1)",
    ),
];

#[test]
fn a_whole_stream_is_read_from_its_pieces(rt: HostRuntime) -> Result<(), Fail> {
    for (pieces, want) in PIECES {
        let answer = held(rt.alloc(), pieces)?;
        assert_eq!(rt; answer.as_str(), *want);
    }
    Ok(())
}

/// A packet whose value is a string of a megabyte.
fn megabyte(alloc: Global) -> Result<Vec<u8>, Fail> {
    let mut bytes = Vec::new(alloc);
    bytes.extend_from_slice(b"\x50\x00\x00\x00\x00\x10\x00\x001048568:")?;
    for _ in 0..1_048_568 {
        bytes.push(b'a')?;
    }
    Ok(bytes)
}

#[test]
fn a_megabyte_comes_byte_by_byte(rt: HostRuntime) -> Result<(), Fail> {
    let bytes = megabyte(rt.alloc())?;
    let answer = told(rt.alloc(), ONE_MIB, bytes.as_slice(), 1)?;
    assert!(rt; answer.as_str().starts_with("0 [97, 97, 97"));
    assert!(rt; answer.as_str().ends_with("97, 97], 0 unread"));
    assert_eq!(rt; answer.as_bytes().len(), 4_194_284);
    Ok(())
}
