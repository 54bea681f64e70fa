// Kinds of packets: the worked packets, each kind read back, and each item that does not fit.
ghost use Rattle.std.specs.Prelude.{◌≡◌, ◌<◌, ◌^◌, pos, negsuc, codes, IfOk, Some, [], ◌∷◌};
ghost use Rattle.bencode_values.specs.declared.value.Value.TheVariants as V;
ghost use Rattle.packet_kinds.specs.declared.from_client.FromClient.TheVariants as C;
ghost use Rattle.packet_kinds.specs.declared.to_client.ToClient.TheVariants as T;
ghost use Rattle.packet_kinds.specs.Fields.{HasFields, IsPlain, drawn_size};
ghost use Rattle.packet_kinds.specs.FromClients.{IsNamed};
ghost use Rattle.packet_kinds.specs.FromFields.{IsSmallPacket};

use bencode_values::{Items, Read, Value, read_value};
use packet_kinds::{
    FromClient, ToClient, a_plain_message_may_be_written,
    a_small_packet_of_a_client_may_be_written, from_bytes_of, read_from_client, read_to_client,
    to_bytes,
};
use std::alloc::Global;
use std::test::Fail;
use xp_base::{Bytes, Coding, Wid};

/// The value of these bytes.
fn value_of(alloc: Global, bytes: &[u8]) -> Result<Value, Fail> {
    match read_value(alloc, bytes) {
        Read::Whole(value, _used) => Ok(value),
        Read::Short | Read::Bad(_, _) | Read::NoMemory => Err("no value".into()),
    }
}

/// Values, and what they say as packets of the server.
const TO_CLIENT: &[(&str, &str)] = &[
    ("i1e", "Err(Shape(0))"),
    ("le", "Err(Shape(0))"),
    ("li1ee", "Err(Shape(0))"),
    ("d5:hellolee", "Err(Shape(0))"),
    // one of each kind, with items behind those that are named
    ("l5:helloe", "Ok(Hello { caps: None })"),
    ("l5:helloi0ee", "Ok(Hello { caps: Some(Int(0)) })"),
    (
        "l10:new-windowi1ei-32768ei32767ei4096ei1edei5ee",
        "Ok(NewWindow { wid: Wid(1), x: -32768, y: 32767, w: 4096, h: 1 })",
    ),
    (
        "l10:new-windowi65535ei0ei0ei1ei4096ee",
        "Ok(NewWindow { wid: Wid(65535), x: 0, y: 0, w: 1, h: 4096 })",
    ),
    ("l11:lost-windowi7e0:e", "Ok(LostWindow { wid: Wid(7) })"),
    (
        "l14:window-resizedi7ei2ei3ee",
        "Ok(WindowResized { wid: Wid(7), w: 2, h: 3 })",
    ),
    (
        "l18:window-move-resizei7ei-1ei2ei3ei4ee",
        "Ok(WindowMoveResize { wid: Wid(7), x: -1, y: 2, w: 3, h: 4 })",
    ),
    ("l12:raise-windowi7ee", "Ok(RaiseWindow { wid: Wid(7) })"),
    (
        "l4:drawi1ei4095ei0ei1ei4096e5:rgb321:ai-9223372036854775808ei67108864ee",
        "Ok(Draw { wid: Wid(1), x: 4095, y: 0, w: 1, h: 4096, coding: Exact, bytes: Bytes([97]), packet_sequence: -9223372036854775808, rowstride: 67108864 })",
    ),
    (
        "l4:drawi1ei0ei0ei1ei1e5:rgb160:i0ei1edee",
        "Ok(Draw { wid: Wid(1), x: 0, y: 0, w: 1, h: 1, coding: Lossy, bytes: Bytes([]), packet_sequence: 0, rowstride: 1 })",
    ),
    ("l9:ping_echoi-5ee", "Ok(PingEcho { t: -5 })"),
    ("l10:disconnecte", "Ok(Disconnect { reason: None })"),
    (
        "l10:disconnect1:xe",
        "Ok(Disconnect { reason: Some(Bytes(Bytes([120]))) })",
    ),
    ("l4:ping1:xe", "Ok(Other)"),
    ("l0:e", "Ok(Other)"),
    // windows' numbers
    ("l10:new-windowe", "Err(Shape(1))"),
    ("l10:new-windowi0ei0ei0ei1ei1edee", "Err(Shape(1))"),
    ("l10:new-windowi65536ei0ei0ei1ei1edee", "Err(Shape(1))"),
    ("l11:lost-window1:1e", "Err(Shape(1))"),
    ("l14:window-resizedi-1ei2ei3ee", "Err(Shape(1))"),
    ("l18:window-move-resizelei0ei0ei1ei1ee", "Err(Shape(1))"),
    ("l12:raise-windowi65536ee", "Err(Shape(1))"),
    ("l4:drawi0ei0ei0ei1ei1e5:rgb320:i1ei4ee", "Err(Shape(1))"),
    // windows' places
    ("l10:new-windowi1ei-32769ei0ei1ei1edee", "Err(Shape(2))"),
    ("l10:new-windowi1ei0ei32768ei1ei1edee", "Err(Shape(3))"),
    (
        "l18:window-move-resizei1ei32768ei0ei1ei1ee",
        "Err(Shape(2))",
    ),
    (
        "l18:window-move-resizei1ei0ei-32769ei1ei1ee",
        "Err(Shape(3))",
    ),
    // windows' sides
    ("l10:new-windowi1ei0ei0ei0ei1edee", "Err(Shape(4))"),
    ("l10:new-windowi1ei0ei0ei1ei4097edee", "Err(Shape(5))"),
    ("l10:new-windowi1ei0ei0ei1ee", "Err(Shape(5))"),
    ("l14:window-resizedi1ei4097ei3ee", "Err(Shape(2))"),
    ("l14:window-resizedi1ei2ei0ee", "Err(Shape(3))"),
    ("l18:window-move-resizei1ei0ei0ei0ei1ee", "Err(Shape(4))"),
    ("l18:window-move-resizei1ei0ei0ei1edee", "Err(Shape(5))"),
    // draws
    ("l4:drawi1ei4096ei0ei1ei1e5:rgb320:i1ei4ee", "Err(Shape(2))"),
    ("l4:drawi1ei-1ei0ei1ei1e5:rgb320:i1ei4ee", "Err(Shape(2))"),
    ("l4:drawi1ei0ei4096ei1ei1e5:rgb320:i1ei4ee", "Err(Shape(3))"),
    ("l4:drawi1ei1ei0ei4096ei1e5:rgb320:i1ei4ee", "Err(Shape(4))"),
    ("l4:drawi1ei0ei0ei0ei1e5:rgb320:i1ei4ee", "Err(Shape(4))"),
    (
        "l4:drawi1ei0ei4000ei1ei97e5:rgb320:i1ei4ee",
        "Err(Shape(5))",
    ),
    ("l4:drawi1ei0ei0ei1ei1e5:rgb240:i1ei4ee", "Err(Shape(6))"),
    ("l4:drawi1ei0ei0ei1ei1ei32e0:i1ei4ee", "Err(Shape(6))"),
    ("l4:drawi1ei0ei0ei1ei1e3:rgb0:i1ei4ee", "Err(Shape(6))"),
    ("l4:drawi1ei0ei0ei1ei1e5:rgb32i0ei1ei4ee", "Err(Shape(7))"),
    ("l4:drawi1ei0ei0ei1ei1e5:rgb320:1:1i4ee", "Err(Shape(8))"),
    ("l4:drawi1ei0ei0ei1ei1e5:rgb320:i1ei0ee", "Err(Shape(9))"),
    (
        "l4:drawi1ei0ei0ei1ei1e5:rgb320:i1ei67108865ee",
        "Err(Shape(9))",
    ),
    ("l4:drawi1ei0ei0ei1ei1e5:rgb320:i1ee", "Err(Shape(9))"),
    // two wrong items: the first is named
    (
        "l4:drawi1ei0ei0ei9999ei9999e5:rgb24i0e0:i0ee",
        "Err(Shape(4))",
    ),
    ("l10:new-windowi0ei99999ei0ei0ei0ee", "Err(Shape(1))"),
    ("l9:ping_echoe", "Err(Shape(1))"),
    ("l9:ping_echo1:5e", "Err(Shape(1))"),
    // names that are near
    ("l4:Drawe", "Ok(Other)"),
    ("l5:drawse", "Ok(Other)"),
    ("l9:ping-echoe", "Ok(Other)"),
    ("l10:new_windowe", "Ok(Other)"),
];

#[test]
fn the_servers_packets_are_read_or_their_first_wrong_item_is_named(
    rt: HostRuntime,
) -> Result<(), Fail> {
    for (bytes, want) in TO_CLIENT {
        let value = value_of(rt.alloc(), bytes.as_bytes())?;
        let message = read_to_client(rt.alloc(), &value);
        let said = format!(in rt.alloc(); "{message:?}")?;
        assert_eq!(rt; said.as_str(), *want, "of {bytes}");
    }
    Ok(())
}

/// Values, and what they say as packets of a client.
const FROM_CLIENT: &[(&str, &str)] = &[
    ("0:", "Err(Shape(0))"),
    ("le", "Err(Shape(0))"),
    ("llee", "Err(Shape(0))"),
    // one of each kind; a window's number may be any integer
    ("l5:helloi0ee", "Ok(Hello { caps: Some(Int(0)) })"),
    ("l5:helloe", "Ok(Hello { caps: None })"),
    (
        "l10:map-windowi1ei2e1:xe",
        "Ok(MapWindow { wid: 1, further: Items { items: [Int(2), Bytes(Bytes([120]))] } })",
    ),
    (
        "l12:unmap-windowi-7ee",
        "Ok(UnmapWindow { wid: -7, further: Items { items: [] } })",
    ),
    (
        "l15:damage-sequencei1ei2ei3ei4ei-5e0:e",
        "Ok(DamageSequence { packet_sequence: 1, wid: 2, width: 3, height: 4, decode_time: -5, message: Some(Bytes(Bytes([]))) })",
    ),
    (
        "l15:damage-sequencei1ei2ei3ei4ei-5ee",
        "Ok(DamageSequence { packet_sequence: 1, wid: 2, width: 3, height: 4, decode_time: -5, message: None })",
    ),
    (
        "l15:damage-sequencei1ei2ei3ei4ei5ei6ei7ee",
        "Ok(DamageSequence { packet_sequence: 1, wid: 2, width: 3, height: 4, decode_time: 5, message: Some(Int(6)) })",
    ),
    (
        "l14:buffer-refreshi65536ei0ee",
        "Ok(BufferRefresh { wid: 65536, further: Items { items: [Int(0)] } })",
    ),
    (
        "l4:pingi9223372036854775807ei1ee",
        "Ok(Ping { t: 9223372036854775807, further: Items { items: [Int(1)] } })",
    ),
    (
        "l10:disconnectdei3ee",
        "Ok(Disconnect { further: Items { items: [Dict(Items { items: [] }), Int(3)] } })",
    ),
    (
        "l10:disconnecte",
        "Ok(Disconnect { further: Items { items: [] } })",
    ),
    ("l4:drawe", "Ok(Other)"),
    ("l9:ping_echoe", "Ok(Other)"),
    // integers that are missing or are none
    ("l10:map-windowe", "Err(Shape(1))"),
    ("l10:map-window1:1e", "Err(Shape(1))"),
    ("l12:unmap-windowe", "Err(Shape(1))"),
    ("l12:unmap-windowlee", "Err(Shape(1))"),
    ("l14:buffer-refreshe", "Err(Shape(1))"),
    ("l14:buffer-refreshdee", "Err(Shape(1))"),
    ("l4:pinge", "Err(Shape(1))"),
    ("l4:ping0:e", "Err(Shape(1))"),
    ("l15:damage-sequence1:1i2ei3ei4ei5ee", "Err(Shape(1))"),
    ("l15:damage-sequencei1elei3ei4ei5ee", "Err(Shape(2))"),
    ("l15:damage-sequencei1ei2e0:i4ei5ee", "Err(Shape(3))"),
    ("l15:damage-sequencei1ei2ei3ei4ee", "Err(Shape(5))"),
    ("l15:damage-sequencei1ei2ei3edei5ee", "Err(Shape(4))"),
    ("l15:damage-sequencei1ei2ei3ei4e1:5e", "Err(Shape(5))"),
    ("l15:damage-sequencee", "Err(Shape(1))"),
    ("l15:damage-sequencei1ei2ei3ee", "Err(Shape(4))"),
];

#[test]
fn a_clients_packets_are_read_or_their_first_wrong_item_is_named(
    rt: HostRuntime,
) -> Result<(), Fail> {
    for (bytes, want) in FROM_CLIENT {
        let value = value_of(rt.alloc(), bytes.as_bytes())?;
        let message = read_from_client(rt.alloc(), &value);
        let said = format!(in rt.alloc(); "{message:?}")?;
        assert_eq!(rt; said.as_str(), *want, "of {bytes}");
    }
    Ok(())
}

/// The bytes of a message without caps or reason.
fn written(alloc: Global, message: &ToClient) -> Result<Vec<u8>, Fail>
    requires plain { IsPlain message.now }
    requires fields { HasFields message.now }
    requires sized { drawn_size message.now < 2 ^ 32 }
{
    a_plain_message_may_be_written();
    let bytes = to_bytes(alloc, message)?;
    Ok(bytes)
}

#[test]
fn an_exact_draw_of_one_pixel_has_79_bytes(rt: HostRuntime) -> Result<(), Fail> {
    let alloc = rt.alloc();
    let draw = ToClient::Draw {
        wid: Wid::new(1).ok_or("a window's number")?,
        x: 0,
        y: 0,
        w: 1,
        h: 1,
        coding: Coding::Exact,
        bytes: Bytes::new(Vec::from_slice(alloc, &[0x30, 0x20, 0x10, 0xff])?),
        packet_sequence: 1,
        rowstride: 4,
    };
    let bytes = written(alloc, &draw)?;
    assert_eq!(rt; bytes.len(), 79);
    let want =
        b"\x50\x00\x00\x07\x00\x00\x00\x04\x30\x20\x10\xff\x50\x00\x00\x00\x00\x00\x00\x3bl4:drawi1ei0ei0ei1ei1e5:rgb320:i1ei4ed10:rgb_format4:BGRXee";
    assert_eq!(rt; bytes.as_slice(), want.as_slice());
    Ok(())
}

#[test]
fn a_lossy_draw_names_its_coding(rt: HostRuntime) -> Result<(), Fail> {
    let alloc = rt.alloc();
    let draw = ToClient::Draw {
        wid: Wid::new(2).ok_or("a window's number")?,
        x: 3,
        y: 4,
        w: 1,
        h: 1,
        coding: Coding::Lossy,
        bytes: Bytes::new(Vec::from_slice(alloc, &[0x06, 0x11])?),
        packet_sequence: 9,
        rowstride: 2,
    };
    let bytes = written(alloc, &draw)?;
    let want =
        b"\x50\x00\x00\x07\x00\x00\x00\x02\x06\x11\x50\x00\x00\x00\x00\x00\x00\x3dl4:drawi2ei3ei4ei1ei1e5:rgb160:i9ei2ed10:rgb_format6:BGR565ee";
    assert_eq!(rt; bytes.as_slice(), want.as_slice());
    Ok(())
}

/// The bytes of the main packet, where its header says how many they are.
fn content(bytes: &[u8]) -> Option<&[u8]> {
    if bytes.len() < 8 || bytes[..7] != [0x50, 0, 0, 0, 0, 0, 0] {
        return None;
    }
    let content = &bytes[8..];
    if content.len() != usize::from(bytes[7]) {
        return None;
    }
    Some(content)
}

#[test]
fn the_servers_packets_have_their_items_in_order(rt: HostRuntime) -> Result<(), Fail> {
    let alloc = rt.alloc();
    let wid = Wid::new(1).ok_or("a window's number")?;
    let new_window = written(
        alloc,
        &ToClient::NewWindow {
            wid,
            x: -2,
            y: 3,
            w: 4,
            h: 5,
        },
    )?;
    let lost = written(alloc, &ToClient::LostWindow { wid })?;
    let resized = written(alloc, &ToClient::WindowResized { wid, w: 4, h: 5 })?;
    let moved = written(
        alloc,
        &ToClient::WindowMoveResize {
            wid,
            x: 2,
            y: -3,
            w: 4,
            h: 5,
        },
    )?;
    let raised = written(alloc, &ToClient::RaiseWindow { wid })?;
    let echo = written(alloc, &ToClient::PingEcho { t: -7 })?;
    let cases: [(&[u8], &[u8]); 6] = [
        (new_window.as_slice(), b"l10:new-windowi1ei-2ei3ei4ei5edee"),
        (lost.as_slice(), b"l11:lost-windowi1ee"),
        (resized.as_slice(), b"l14:window-resizedi1ei4ei5ee"),
        (moved.as_slice(), b"l18:window-move-resizei1ei2ei-3ei4ei5ee"),
        (raised.as_slice(), b"l12:raise-windowi1ee"),
        (echo.as_slice(), b"l9:ping_echoi-7ee"),
    ];
    for (bytes, want) in cases {
        assert_eq!(rt; content(bytes).ok_or("no packet")?, want);
    }
    Ok(())
}

/// A packet with the reason `not hello`.
fn refusal(alloc: Global) -> Result<ToClient, Fail>
    ensures { IfOk result (λ message. message ≡ T.Disconnect (Some (V.Bytes (codes "not hello")))) }
{
    let reason = Value::Bytes(Bytes::new(Vec::from_slice(alloc, b"not hello")?));
    Ok(ToClient::Disconnect {
        reason: Some(reason),
    })
}

#[test]
fn a_reason_and_caps_are_written_as_they_are(rt: HostRuntime) -> Result<(), Fail> {
    let alloc = rt.alloc();
    let message = refusal(alloc)?;
    let bytes = to_bytes(alloc, &message)?;
    let want = b"l10:disconnect9:not helloe";
    assert_eq!(rt;
        content(bytes.as_slice()).ok_or("no packet")?,
        want.as_slice()
    );
    let hello = to_bytes(alloc, &ToClient::Hello { caps: None })?;
    assert_eq!(rt;
        content(hello.as_slice()).ok_or("no packet")?,
        b"l5:helloe".as_slice()
    );
    Ok(())
}

/// Four integers.
fn four(alloc: Global, a: i64, b: i64, c: i64, d: i64) -> Result<Items, Fail>
    ensures { IfOk result (λ items. items ≡ V.Int a ∷ V.Int b ∷ V.Int c ∷ V.Int d ∷ []) }
{
    let mut items = Items::new(alloc);
    items.push(Value::Int(a))?;
    items.push(Value::Int(b))?;
    items.push(Value::Int(c))?;
    items.push(Value::Int(d))?;
    Ok(items)
}

/// Whether this is the content of a client's small packet.
fn says(alloc: Global, message: &FromClient, want: &[u8]) -> Result<bool, Fail>
    requires named { IsNamed message.now }
    requires small { IsSmallPacket message.now }
{
    a_small_packet_of_a_client_may_be_written();
    let bytes = from_bytes_of(alloc, message)?;
    Ok(content(bytes.as_slice()).ok_or("no packet")? == want)
}

/// An acknowledgement with an empty message.
fn acknowledgement(alloc: Global) -> Result<FromClient, Fail>
    ensures { IfOk result (λ message. message ≡ C.DamageSequence (pos 1) (pos 1) (pos 1) (pos 1) (negsuc 0) (Some (V.Bytes []))) }
{
    Ok(FromClient::DamageSequence {
        packet_sequence: 1,
        wid: 1,
        width: 1,
        height: 1,
        decode_time: -1,
        message: Some(Value::Bytes(Bytes::new(Vec::new(alloc)))),
    })
}

#[test]
fn an_acknowledgement_and_a_map_have_their_items_in_order(rt: HostRuntime) -> Result<(), Fail> {
    let alloc = rt.alloc();
    let drawn = acknowledgement(alloc)?;
    let want = b"l15:damage-sequencei1ei1ei1ei1ei-1e0:e";
    assert!(rt; says(alloc, &drawn, want.as_slice())?);
    let further = four(alloc, 0, -1, 2, 3)?;
    let mapped = FromClient::MapWindow { wid: 1, further };
    let want = b"l10:map-windowi1ei0ei-1ei2ei3ee";
    assert!(rt; says(alloc, &mapped, want.as_slice())?);
    Ok(())
}

#[test]
fn a_clients_other_packets_have_their_items_in_order(rt: HostRuntime) -> Result<(), Fail> {
    let alloc = rt.alloc();
    let further = Items::new(alloc);
    let unmapped = FromClient::UnmapWindow { wid: 1, further };
    assert!(rt; says(alloc, &unmapped, b"l12:unmap-windowi1ee".as_slice())?);
    let further = Items::new(alloc);
    let refreshed = FromClient::BufferRefresh { wid: 1, further };
    assert!(rt; says(alloc, &refreshed, b"l14:buffer-refreshi1ee".as_slice())?);
    let further = Items::new(alloc);
    let pinged = FromClient::Ping { t: 12, further };
    assert!(rt; says(alloc, &pinged, b"l4:pingi12ee".as_slice())?);
    let further = Items::new(alloc);
    let left = FromClient::Disconnect { further };
    assert!(rt; says(alloc, &left, b"l10:disconnecte".as_slice())?);
    Ok(())
}
