// Hellos: first packets by their form and by their keys, and what the server answers.
use bencode_values::{Read, read_value};
use hello_caps::{Caps, HelloFault, HelloRead, goodbye, read_hello, server_hello};
use packet_frames::write_packet;
use std::alloc::Global;
use std::fmt::Write;
use std::test::Fail;
use xp_base::Bytes;

/// What the bytes of one value are answered as a client's first packet.
fn answer_to(alloc: Global, bytes: &[u8]) -> Result<HelloRead, Fail> {
    match read_value(alloc, bytes) {
        Read::Whole(value, used) => {
            if used == bytes.len() {
                Ok(read_hello(alloc, &value))
            } else {
                Err("more than one value".into())
            }
        }
        Read::NoMemory => Err("no memory".into()),
        _ => Err("no value".into()),
    }
}

/// The same, in words.
fn told(alloc: Global, bytes: &[u8]) -> Result<String, Fail> {
    let mut out = String::new(alloc);
    match answer_to(alloc, bytes)? {
        HelloRead::Accepted(caps) => {
            out.push_str(if caps.lossy { "lossy" } else { "exact" })?;
            let uuid = caps.uuid.as_slice();
            if !uuid.is_empty() {
                write!(out, " {uuid:?}")?;
            }
        }
        HelloRead::Refused(fault) => write!(out, "{fault:?}")?,
        HelloRead::NoMemory => out.push_str("no memory")?,
    }
    Ok(out)
}

/// First packets, and what they are answered.
const FORMS: &[(&str, &str)] = &[
    // the hellos of this project's own clients
    ("l5:hellod9:encodingsl5:rgb32eee", "exact"),
    (
        "l5:hellod9:encodingsl5:rgb32e21:encodings.rgb_formatsl4:BGRX6:BGR565eee",
        "lossy",
    ),
    // only other codings
    ("l5:hellod9:encodingsl3:png4:webpeee", "NoEncoding"),
    // not a list; a list without the word, or without a dictionary behind it
    ("i5e", "NotHello"),
    ("5:hello", "NotHello"),
    ("de", "NotHello"),
    ("d5:hellodee", "NotHello"),
    ("le", "NotHello"),
    ("l5:helloe", "NotHello"),
    ("l5:hellolee", "NotHello"),
    ("l5:hello0:e", "NotHello"),
    ("l5:helloi0edee", "NotHello"),
    ("l5:Hellodee", "NotHello"),
    ("l6:hello dee", "NotHello"),
    ("l4:helldee", "NotHello"),
    ("lde5:helloe", "NotHello"),
    ("ll5:helloedee", "NotHello"),
    ("l10:disconnecte", "NotHello"),
    ("l10:map-windowi1ei0ei0ei1ei1ee", "NotHello"),
    // further items are ignored
    ("l5:hellodei7ele0:dee", "exact"),
    ("l5:hellodel3:pngee", "exact"),
];

#[test]
fn each_first_packet_is_accepted_or_refused_by_its_form(rt: HostRuntime) -> Result<(), Fail> {
    for (text, want) in FORMS {
        let answer = told(rt.alloc(), text.as_bytes())?;
        assert_eq!(rt; answer.as_str(), *want, "{text}");
    }
    Ok(())
}

/// Pairs of a hello, and what it is answered.
const KEYS: &[(&str, &str)] = &[
    ("", "exact"),
    // encodings: any other kind counts as `rgb32`
    ("9:encodingsl3:rgbe", "exact"),
    ("9:encodingsl3:png3:rgbe", "exact"),
    ("9:encodings3:png", "exact"),
    ("9:encodingsi7e", "exact"),
    ("9:encodingsd3:png3:pnge", "exact"),
    ("9:encodingsle", "NoEncoding"),
    ("9:encodingsl5:RGB324:rgb36:rgb32 e", "NoEncoding"),
    // items that are no byte strings are ignored
    ("9:encodingsli32el5:rgb32ed5:rgb325:rgb32ee", "NoEncoding"),
    ("9:encodingsli32el3:pnge5:rgb32dee", "exact"),
    // other keys are ignored, integers and groups among them
    ("9:Encodingsl3:pnge", "exact"),
    ("i9el3:pngei-1e3:png", "exact"),
    ("8:encodingd9:encodingsl3:pngee", "exact"),
    ("9:encodingsl3:pngei9el5:rgb32e", "NoEncoding"),
    ("4:zlibi1e3:lz4i1e7:rencodei1e", "exact"),
    // the last pair counts
    ("9:encodingsl3:pnge9:encodingsl5:rgb32e", "exact"),
    ("9:encodingsl5:rgb32e9:encodingsl3:pnge", "NoEncoding"),
    ("9:encodingsl3:pnge9:encodingsi1e", "exact"),
    ("9:encodingsl5:rgb32ei1e0:9:encodingsle", "NoEncoding"),
    // formats
    ("21:encodings.rgb_formatsl6:BGR565e", "lossy"),
    ("21:encodings.rgb_formatsl4:BGRX4:RGBX6:BGR565e", "lossy"),
    ("21:encodings.rgb_formatsl4:BGRXe", "exact"),
    ("21:encodings.rgb_formatsle", "exact"),
    ("21:encodings.rgb_formats6:BGR565", "exact"),
    ("21:encodings.rgb_formatsl6:bgr565l6:BGR565ee", "exact"),
    ("11:rgb_formatsl6:BGR565e", "exact"),
    ("9:encodingsl5:rgb326:BGR565e", "exact"),
    ("9:encodingsd11:rgb_formatsl6:BGR565ee", "exact"),
    (
        "21:encodings.rgb_formatsl6:BGR565e21:encodings.rgb_formatsl4:BGRXe",
        "exact",
    ),
    (
        "21:encodings.rgb_formatsl4:BGRXe21:encodings.rgb_formatsl6:BGR565e",
        "lossy",
    ),
    (
        "9:encodingsl3:pnge21:encodings.rgb_formatsl6:BGR565e",
        "NoEncoding",
    ),
    // uuid
    ("4:uuid1:a", "exact [97]"),
    ("4:uuid3:a\u{0}b", "exact [97, 0, 98]"),
    ("4:uuid0:", "exact"),
    ("4:uuidl1:ae", "exact"),
    ("4:uuidi7e", "exact"),
    ("4:uuidd1:a1:be", "exact"),
    ("4:UUID1:a", "exact"),
    ("4:uuid1:a4:uuid1:b", "exact [98]"),
    ("4:uuid1:a4:uuidi1e", "exact"),
    (
        "4:uuid1:z9:encodingsl3:rgbe21:encodings.rgb_formatsl6:BGR565e",
        "lossy [122]",
    ),
];

#[test]
fn each_key_is_read_by_its_last_pair_and_its_kind(rt: HostRuntime) -> Result<(), Fail> {
    for (pairs, want) in KEYS {
        let mut text = String::new(rt.alloc());
        write!(text, "l5:hellod{pairs}ee")?;
        let answer = told(rt.alloc(), text.as_bytes())?;
        assert_eq!(rt; answer.as_str(), *want, "{pairs}");
    }
    Ok(())
}

/// A byte string of the letter `u` alone, in its spelling.
fn push_letters(out: &mut String, size: usize) -> Result<(), Fail> {
    write!(out, "{size}:")?;
    for _ in 0..size {
        out.push('u')?;
    }
    Ok(())
}

/// The sizes of uuids, and whether they are refused.
const UUIDS: &[(usize, bool)] = &[
    (0, false),
    (1, false),
    (63, false),
    (64, false),
    (65, true),
    (70_000, true),
];

#[test]
fn a_uuid_has_at_most_64_bytes(rt: HostRuntime) -> Result<(), Fail> {
    for (size, refused) in UUIDS {
        let (size, refused) = (*size, *refused);
        let mut text = String::new(rt.alloc());
        text.push_str("l5:hellod4:uuid")?;
        push_letters(&mut text, size)?;
        text.push_str("ee")?;
        match answer_to(rt.alloc(), text.as_bytes())? {
            HelloRead::Accepted(caps) => {
                assert!(rt; !refused, "{size} bytes");
                assert_eq!(rt; caps.uuid.as_slice().len(), size);
            }
            HelloRead::Refused(fault) => {
                assert!(rt; refused, "{size} bytes");
                assert_eq!(rt; fault, HelloFault::Uuid(size as u64));
            }
            HelloRead::NoMemory => return Err("no memory".into()),
        }
    }
    Ok(())
}

/// What stands before a uuid of 65 bytes, and what the hello is answered.
const LONG_UUIDS: &[(&str, &str)] = &[
    ("l5:hellod9:encodingsl3:pnge4:uuid", "NoEncoding"),
    ("l4:helld4:uuid", "NotHello"),
    ("l5:hellod9:encodingsl3:rgbe4:uuid", "Uuid(65)"),
    ("l5:hellod4:uuid1:a4:uuid", "Uuid(65)"),
];

#[test]
fn a_long_uuid_is_named_behind_the_other_faults(rt: HostRuntime) -> Result<(), Fail> {
    for (front, want) in LONG_UUIDS {
        let mut text = String::new(rt.alloc());
        text.push_str(front)?;
        push_letters(&mut text, 65)?;
        text.push_str("ee")?;
        let answer = told(rt.alloc(), text.as_bytes())?;
        assert_eq!(rt; answer.as_str(), *want, "{front}");
    }
    Ok(())
}

/// A hello of many keys: codings, compressors, a uuid of 32 bytes, and 50 numbers, texts and nested dictionaries.
fn push_many_keys(out: &mut String) -> Result<(), Fail> {
    out.push_str("l5:hellod9:encodingsl3:rgb3:png4:jpege3:lz4i1e4:zlibi1e")?;
    out.push_str("7:version3:3.18:platform5:linux4:uuid32:0123456789abcdef0123456789abcdef")?;
    for number in 100..150 {
        write!(out, "6:key{number}")?;
        match number % 3 {
            0 => write!(out, "i{number}e")?,
            1 => out.push_str("4:text")?,
            _ => out.push_str("d9:encodingsl3:pnge4:uuid1:xe")?,
        }
    }
    out.push_str("ee")?;
    Ok(())
}

#[test]
fn a_hello_of_many_keys_is_accepted(rt: HostRuntime) -> Result<(), Fail> {
    let mut text = String::new(rt.alloc());
    push_many_keys(&mut text)?;
    match answer_to(rt.alloc(), text.as_bytes())? {
        HelloRead::Accepted(caps) => {
            assert!(rt; !caps.lossy);
            let want = b"0123456789abcdef0123456789abcdef".as_slice();
            assert_eq!(rt; caps.uuid.as_slice(), want);
        }
        HelloRead::Refused(_fault) => return Err("refused".into()),
        HelloRead::NoMemory => return Err("no memory".into()),
    }
    Ok(())
}

/// A hello of the shape that real clients' have: 219 keys, of which 60 are integers and most others hold six levels
/// of lists and dictionaries, in some 78,000 bytes.
fn push_real_shape(out: &mut String) -> Result<(), Fail> {
    out.push_str("l5:hellod")?;
    for number in 100..255 {
        write!(out, "6:key{number}ld5:innerd4:listl")?;
        for item in 100..147 {
            write!(out, "i{item}e3:abc")?;
        }
        out.push_str("eeee")?;
    }
    out.push_str("21:encodings.rgb_formatsl3:RGB6:BGR565e")?;
    for number in 0..60 {
        write!(out, "i{number}el4:texte")?;
    }
    out.push_str(
        "9:encodingsl4:h2643:png5:rgb323:rgbe4:uuid36:01234567-89ab-cdef-0123-456789abcdef",
    )?;
    out.push_str("4:wifii0eee")?;
    Ok(())
}

#[test]
fn a_hello_of_a_real_clients_shape_is_accepted(rt: HostRuntime) -> Result<(), Fail> {
    let mut text = String::new(rt.alloc());
    push_real_shape(&mut text)?;
    let size = text.as_bytes().len();
    assert!(rt; size >= 78_000 && size < 79_000, "{size} bytes");
    match answer_to(rt.alloc(), text.as_bytes())? {
        HelloRead::Accepted(caps) => {
            assert!(rt; caps.lossy);
            assert_eq!(rt; caps.uuid.as_slice().len(), 36);
        }
        HelloRead::Refused(_fault) => return Err("refused".into()),
        HelloRead::NoMemory => return Err("no memory".into()),
    }
    Ok(())
}

/// Whether the client allows the lossy coding, and the bytes that greet it.
const SERVER_HELLOS: &[(bool, &[u8])] = &[
    (
        false,
        b"\x50\x00\x00\x00\x00\x00\x00\x4bl5:hellod7:bencodei1e9:encodingsl5:rgb32e3:lz4i0e7:rencodei0e7:version1:1ee",
    ),
    (
        true,
        b"\x50\x00\x00\x00\x00\x00\x00\x52l5:hellod7:bencodei1e9:encodingsl5:rgb325:rgb16e3:lz4i0e7:rencodei0e7:version1:1ee",
    ),
];

#[test]
fn the_servers_hello_is_written(rt: HostRuntime) -> Result<(), Fail> {
    let alloc = rt.alloc();
    for (lossy, want) in SERVER_HELLOS {
        let caps = Caps {
            lossy: *lossy,
            uuid: Bytes::new(Vec::new(alloc)),
        };
        let hello = server_hello(alloc, &caps)?;
        let bytes = write_packet(alloc, &hello, None)?;
        assert_eq!(rt; bytes.as_slice(), *want);
    }
    Ok(())
}

/// Why a client is refused, and the bytes that tell it.
const REFUSALS: &[(HelloFault, &[u8])] = &[
    (
        HelloFault::NotHello,
        b"\x50\x00\x00\x00\x00\x00\x00\x1al10:disconnect9:not helloe",
    ),
    (
        HelloFault::NoEncoding,
        b"\x50\x00\x00\x00\x00\x00\x00\x1dl10:disconnect11:no encodinge",
    ),
    (
        HelloFault::Uuid(65),
        b"\x50\x00\x00\x00\x00\x00\x00\x1fl10:disconnect13:uuid too longe",
    ),
];

#[test]
fn each_refusal_is_told_by_its_packet(rt: HostRuntime) {
    for (fault, want) in REFUSALS {
        assert_eq!(rt; goodbye(fault), *want);
    }
    assert_eq!(rt; goodbye(&HelloFault::NoEncoding).len(), 37);
}
