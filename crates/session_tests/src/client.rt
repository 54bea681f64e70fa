// One open connection's client.

use client_connection::messages::{draw_packet, new_window_packet, server_hello_packet};
use client_connection::wire::map_window_packet;
use client_connection::{Captured, Client, End, Geometry, Sent, Trouble};
use first_script::Paint;
use link_bay::{Accept, Bay, EXACT_HELLO, Kind, Name, OneBay, Order};
use std::alloc::Global;
use std::test::Fail;
use window_model::Desk;
use xp_base::{Pixel, Rect, Wid};

/// The draw of one pixel 102030 at 0 0 of window 1, with the sequence number 1.
const DRAW: &[u8; 79] =
    b"P\x00\x00\x07\x00\x00\x00\x04\x30\x20\x10\xffP\x00\x00\x00\x00\x00\x00\x3bl4:drawi1ei0ei0ei1ei1e5:rgb320:i1ei4ed10:rgb_format4:BGRXee";

/// The server's hello to a client that takes exact draws alone.
const SERVER_HELLO: &[u8; 83] =
    b"P\x00\x00\x00\x00\x00\x00\x4bl5:hellod7:bencodei1e9:encodingsl5:rgb32e3:lz4i0e7:rencodei0e7:version1:1ee";

/// The announcement of window 1, at 0 0, of one pixel.
const NEW_WINDOW: &[u8; 40] = b"P\x00\x00\x00\x00\x00\x00\x20l10:new-windowi1ei0ei0ei1ei1edee";

/// Its map by an exact client.
const MAP_WINDOW: &[u8; 38] = b"P\x00\x00\x00\x00\x00\x00\x1el10:map-windowi1ei0ei0ei1ei1ee";

fn one_pixel(alloc: Global, wid: Wid) -> Result<Desk, Fail> {
    let mut desk = Desk::new(alloc);
    let pixel = Pixel::new(0x10_20_30).ok_or("a pixel")?;
    let whole = Rect::new(0, 0, 1, 1).ok_or("a rectangle")?;
    if desk.find(wid).is_none() {
        desk.add(wid, 0, 0, 1, 1)?;
    }
    if let Some(window) = desk.find(wid) {
        if whole.lies_in(window.w, window.h) {
            desk.fill(wid, whole, pixel);
        }
    }
    Ok(desk)
}

/// The script that opens the window.
fn opening(wid: Wid) -> [Paint; 1] {
    [Paint::Open {
        wid,
        x: 0,
        y: 0,
        w: 1,
        h: 1,
    }]
}

#[test]
fn each_packet_has_the_bytes_of_the_format(rt: HostRuntime) -> Result<(), Fail> {
    let alloc = rt.alloc();
    let wid = Wid::new(1).ok_or("a window's number")?;
    let desk = one_pixel(alloc, wid)?;
    let window = desk.find(wid).ok_or("a window")?;
    let geometry = Geometry::new(wid, 0, 0, 1, 1);
    let hello = server_hello_packet(alloc)?;
    assert_eq!(rt; hello.as_slice(), SERVER_HELLO.as_slice());
    let announcement = new_window_packet(alloc, &geometry)?;
    assert_eq!(rt; announcement.as_slice(), NEW_WINDOW.as_slice());
    let map = map_window_packet(alloc, &geometry)?;
    assert_eq!(rt; map.as_slice(), MAP_WINDOW.as_slice());
    let draw = draw_packet(alloc, window, 1)?;
    assert_eq!(rt; draw.as_slice(), DRAW.as_slice());
    Ok(())
}

#[test]
fn a_client_is_heard_and_captured(rt: HostRuntime) -> Result<(), Fail> {
    let alloc = rt.alloc();
    let wid = Wid::new(1).ok_or("a window's number")?;
    let desk = one_pixel(alloc, wid)?;
    let window = desk.find(wid).ok_or("a window")?;
    let lines = opening(wid);
    let mut client = Client::new(alloc);
    let said: [(&[u8], Result<(), Trouble>, bool, bool, Captured); 5] = [
        (b"", Ok(()), false, false, Captured::Closed),
        (EXACT_HELLO, Ok(()), true, true, Captured::Unmapped),
        (MAP_WINDOW, Ok(()), true, true, Captured::Jobs(1)),
        (b"P", Ok(()), true, true, Captured::Clean),
        (b"Q", Err(Trouble::Unbuilt), true, true, Captured::Clean),
    ];
    for (bytes, heard, greeted, owed, captured) in said {
        assert_eq!(rt; client.hear(alloc, bytes, lines.as_slice(), &desk), heard);
        assert_eq!(rt; client.is_greeted(), greeted);
        assert_eq!(rt; client.owes(wid, 0, 0), owed);
        assert_eq!(rt; client.capture(alloc, window), captured);
    }
    assert_eq!(rt; Trouble::Unbuilt.end(), End::Unbuilt);
    assert_eq!(rt; Trouble::NoMemory.end(), End::Short);
    Ok(())
}

#[test]
fn a_client_is_written_to(rt: HostRuntime) -> Result<(), Fail> {
    let alloc = rt.alloc();
    let wid = Wid::new(1).ok_or("a window's number")?;
    let empty = Desk::new(alloc);
    let geometry = Geometry::new(wid, 0, 0, 1, 1);
    let mut client = Client::new(alloc);
    let mut bay = OneBay::new(alloc);
    bay.order(&Order::Join(Kind::Exact, Name::new(Vec::new(alloc))))?;
    let Accept::Conn(c) = bay.accept() else {
        return Err(Fail::from("nobody came"));
    };
    assert_eq!(rt; client.send(&mut bay, c, 100), Ok(Sent::Idle));
    assert_eq!(rt;
        client.hear(alloc, EXACT_HELLO, opening(wid).as_slice(), &empty),
        Ok(())
    );
    client.prepare(alloc, &geometry)?;
    client.announce(&geometry);
    let rect = Rect::new(0, 0, 1, 1).ok_or("a rectangle")?;
    client.damage(wid, rect);
    assert_eq!(rt; client.owes(wid, 0, 0), true);
    assert_eq!(rt; client.send(&mut bay, c, 80), Ok(Sent::Took(80)));
    assert_eq!(rt; client.send(&mut bay, c, 80), Ok(Sent::Took(3)));
    assert_eq!(rt; client.send(&mut bay, c, 80), Ok(Sent::Took(40)));
    assert_eq!(rt; client.send(&mut bay, c, 80), Ok(Sent::Idle));
    Ok(())
}
