// Values: each spelling, the first wrong byte, and pairs as they stand.
ghost use Rattle.std.specs.Prelude.{IfSome};
ghost use Rattle.bencode_values.specs.Grammar.{IsWithinLimits};

use bencode_values::{Pairs, Read, Value, lookup, read_value, write_value};
use std::alloc::Global;
use std::test::Fail;

/// What bytes begin with, in words, without the value.
fn told(alloc: Global, bytes: &[u8]) -> Result<String, Fail> {
    match read_value(alloc, bytes) {
        Read::Whole(_value, used) => Ok(format!(in alloc; "Whole({used})")?),
        Read::Short => Ok(format!(in alloc; "Short")?),
        Read::Bad(place, why) => Ok(format!(in alloc; "Bad({place}, {why:?})")?),
        Read::NoMemory => Err("no memory".into()),
    }
}

/// Texts, and what they begin with.
const READINGS: &[(&str, &str)] = &[
    ("i-0e", "Bad(2, MinusZero)"),
    ("i007e", "Bad(2, Leading)"),
    ("i9223372036854775807e", "Whole(21)"),
    ("i9223372036854775808e", "Bad(19, Range)"),
    (
        "lllllllllllllllllllllllllllllllleeeeeeeeeeeeeeeeeeeeeeeeeeeeeee",
        "Short",
    ),
    (
        "lllllllllllllllllllllllllllllllleeeeeeeeeeeeeeeeeeeeeeeeeeeeeeee",
        "Whole(64)",
    ),
    ("lllllllllllllllllllllllllllllllll", "Bad(32, Depth)"),
    ("", "Short"),
    ("0:", "Whole(2)"),
    // integers
    ("i0e", "Whole(3)"),
    ("i00e", "Bad(2, Leading)"),
    ("i-1e", "Whole(4)"),
    ("i-01e", "Bad(2, MinusZero)"),
    ("i-9223372036854775808e", "Whole(22)"),
    ("i-9223372036854775809e", "Bad(20, Range)"),
    ("i92233720368547758070e", "Bad(20, Range)"),
    ("i9999999999999999999e", "Bad(19, Range)"),
    ("i", "Short"),
    ("i-", "Short"),
    ("i0", "Short"),
    ("i12", "Short"),
    ("ie", "Bad(1, Letter)"),
    ("i-e", "Bad(2, Letter)"),
    ("i--1e", "Bad(2, Letter)"),
    ("i+1e", "Bad(1, Letter)"),
    ("i1-e", "Bad(2, Letter)"),
    ("i1 e", "Bad(2, Letter)"),
    ("i0 e", "Bad(2, Letter)"),
    ("i5ex", "Whole(3)"),
    // byte strings
    ("3:abc", "Whole(5)"),
    ("3:abcd", "Whole(5)"),
    ("3:ab", "Short"),
    ("3:", "Short"),
    ("3", "Short"),
    ("0", "Short"),
    ("00:", "Bad(1, Leading)"),
    ("01:a", "Bad(1, Leading)"),
    ("0e", "Bad(1, Letter)"),
    ("3e", "Bad(1, Letter)"),
    ("-1:", "Bad(0, Letter)"),
    ("67108864:", "Short"),
    ("67108865:", "Bad(7, Length)"),
    ("671088640:", "Bad(8, Length)"),
    ("99999999:", "Bad(7, Length)"),
    // lists and dictionaries
    ("e", "Bad(0, Letter)"),
    ("x", "Bad(0, Letter)"),
    (":", "Bad(0, Letter)"),
    ("le", "Whole(2)"),
    ("llee", "Whole(4)"),
    ("lle", "Short"),
    ("li1e1:ae", "Whole(8)"),
    ("li1ex", "Bad(4, Letter)"),
    ("de", "Whole(2)"),
    ("di1elei2edee", "Whole(12)"),
    ("d1:b0:1:a0:e", "Whole(12)"),
    ("d1:ai1e1:ai2ee", "Whole(14)"),
    ("d1:a", "Short"),
    ("di1ee", "Bad(4, Letter)"),
    ("d1:ae", "Bad(4, Letter)"),
    ("d-", "Bad(1, Letter)"),
    ("dle", "Bad(1, Key)"),
    ("dde", "Bad(1, Key)"),
    ("lllllllllllllllllllllllllllllllld", "Bad(32, Depth)"),
    ("llllllllllllllllllllllllllllllldl", "Bad(32, Key)"),
    ("llllllllllllllllllllllllllllllld0:l", "Bad(34, Depth)"),
    ("lllllllllllllllllllllllllllllllli1e", "Short"),
];

#[test]
fn each_spelling_is_read_and_the_first_wrong_byte_is_named(rt: HostRuntime) -> Result<(), Fail> {
    for (text, want) in READINGS {
        let answer = told(rt.alloc(), text.as_bytes())?;
        assert_eq!(rt; answer.as_str(), *want, "at {text}");
    }
    Ok(())
}

fn number_under(pairs: &Pairs, key: &[u8]) -> Option<i64> {
    match lookup(pairs, key) {
        Some(Value::Int(number)) => Some(*number),
        Some(_value) => None,
        None => None,
    }
}

fn whole(alloc: Global, bytes: &[u8]) -> Option<(Value, usize)>
    ensures { IfSome result (λ found. IsWithinLimits found.0) }
{
    match read_value(alloc, bytes) {
        Read::Whole(value, used) => Some((value, used)),
        Read::Short => None,
        Read::Bad(_place, _why) => None,
        Read::NoMemory => None,
    }
}

fn dictionary(value: Value) -> Option<Pairs> {
    match value {
        Value::Int(_number) => None,
        Value::Bytes(_text) => None,
        Value::List(_items) => None,
        Value::Dict(pairs) => Some(pairs),
    }
}

#[test]
fn pairs_are_kept_as_they_stand(rt: HostRuntime) -> Result<(), Fail> {
    let text = "d1:bi1e1:ai2ei7eli-3e0:e1:bi3ee";
    let (value, used) = whole(rt.alloc(), text.as_bytes()).ok_or("not read")?;
    assert_eq!(rt; used, 31);
    let written = write_value(rt.alloc(), &value)?;
    assert_eq!(rt; written.as_slice(), text.as_bytes());
    let pairs = dictionary(value).ok_or("no dictionary")?;
    assert_eq!(rt; pairs.len(), 4);
    assert_eq!(rt; number_under(&pairs, b"b"), Some(3));
    assert_eq!(rt; number_under(&pairs, b"a"), Some(2));
    assert_eq!(rt; number_under(&pairs, b"c"), None);
    Ok(())
}

/// The first text, the middle so many times, and the last.
fn repeated(
    alloc: Global,
    first: &str,
    middle: &str,
    times: usize,
    last: &str,
) -> Result<Vec<u8>, Fail> {
    let mut bytes = Vec::new(alloc);
    bytes.extend_from_slice(first.as_bytes())?;
    for _ in 0..times {
        bytes.extend_from_slice(middle.as_bytes())?;
    }
    bytes.extend_from_slice(last.as_bytes())?;
    Ok(bytes)
}

/// Parts of long texts, how often the middle stands, and what the text begins with.
const LONG: &[(&str, &str, usize, &str, &str)] = &[
    ("l", "le", 524_287, "e", "Whole(1048576)"),
    ("1048568:", "a", 1_048_568, "", "Whole(1048576)"),
    ("l", "i7e", 100_000, "e", "Whole(300002)"),
];

#[test]
fn large_inputs_end_at_once(rt: HostRuntime) -> Result<(), Fail> {
    for (first, middle, times, last, want) in LONG {
        let text = repeated(rt.alloc(), first, middle, *times, last)?;
        let answer = told(rt.alloc(), text.as_slice())?;
        assert_eq!(rt; answer.as_str(), *want, "{first} {times} times {middle}");
    }
    Ok(())
}
