// The worked examples, all widths from 1 to 40, and what no clause says.
ghost use Rattle.std.specs.Prelude.{◌≤◌};

use rgb_encoders::{DataFault, decode, encode, pixel_size, plain_decoding, plain_encoding};
use std::alloc::{AllocError, Global};
use std::fmt::Write;
use std::sync::Arc;
use std::test::Fail;
use xp_base::{Capture, Coding, Pixel, Pixels, Rect};

const HIGH: u32 = 3;

const GAP: u32 = 3;

fn capture_of(
    alloc: Global,
    coding: Coding,
    w: u32,
    h: u32,
    pixels: Vec<Pixel>,
) -> Result<Arc<Capture>, Fail> {
    let rect = Rect::new(0, 0, w, h).ok_or("the sides are wrong")?;
    if pixels.len() != rect.area() as usize {
        return Err(Fail::from("as many pixels as the rectangle has"));
    }
    Ok(Arc::new(alloc, Capture::new(rect, coding, Pixels::new(pixels)))?)
}

fn encoded(alloc: Global, coding: Coding, number: u32) -> Result<Vec<u8>, Fail> {
    let pixel = Pixel::new(number).ok_or("a pixel's number")?;
    let capture = capture_of(alloc, coding, 1, 1, vec![in alloc; pixel]?)?;
    Ok(encode(alloc, capture)?.bytes)
}

#[test]
fn codes_the_worked_pixel(rt: HostRuntime) -> Result<(), Fail> {
    let alloc = rt.alloc();
    let exact = encoded(alloc, Coding::Exact, 0x102030)?;
    assert_eq!(rt; exact.as_slice(), [0x30, 0x20, 0x10, 0xff].as_slice());
    let lossy = encoded(alloc, Coding::Lossy, 0x102030)?;
    assert_eq!(rt; lossy.as_slice(), [0x06, 0x11].as_slice());
    Ok(())
}

/// What the bytes of one lossy pixel show, in hexadecimal, or their fault.
fn pixel_told(alloc: Global, stride: u32, bytes: &[u8]) -> Result<String, Fail> {
    let mut out = String::new(alloc);
    match decode(alloc, Coding::Lossy, 1, 1, stride, bytes) {
        Ok(pixels) => {
            for pixel in pixels.as_slice() {
                let number = pixel.get();
                write!(out, "{number:x}")?;
            }
        }
        Err(fault) => write!(out, "{fault:?}")?,
    }
    Ok(out)
}

/// Strides and bytes of one lossy pixel, and what is told of them.
const ONE_PIXEL: &[(u32, &[u8], &str)] = &[
    (2, &[0x06, 0x11], "102031"),
    (1, &[0x06, 0x11], "Stride(1)"),
    (2, &[0x06, 0x11, 0], "Length(3)"),
    (1, &[0x06, 0x11, 0], "Stride(1)"),
];

#[test]
fn decodes_the_worked_pixel(rt: HostRuntime) -> Result<(), Fail> {
    for (stride, bytes, want) in ONE_PIXEL {
        let told = pixel_told(rt.alloc(), *stride, bytes)?;
        assert_eq!(rt; told.as_str(), *want, "with stride {stride}");
    }
    Ok(())
}

/// Some 24-bit numbers.
fn noise(alloc: Global, count: u32) -> Result<Vec<Pixel>, AllocError> {
    let mut pixels = Vec::new(alloc);
    let mut state = u64::from(count);
    for _ in 0..count {
        state = state % 16_777_216 * 1_140_671_485 + 12_820_163;
        if let Some(pixel) = Pixel::new((state / 256 % 16_777_216) as u32) {
            pixels.push(pixel)?;
        }
    }
    Ok(pixels)
}

/// What a pixel shows, channel by channel: its high bits, and behind them their own high bits.
fn shown(coding: Coding, pixel: Pixel) -> u32 {
    let number = pixel.get();
    let (red, green, blue) = (number / 65_536, number / 256 % 256, number % 256);
    match coding {
        Coding::Exact => number,
        Coding::Lossy => {
            let (red, green, blue) = (
                red / 8 * 8 + red / 32,
                green / 4 * 4 + green / 64,
                blue / 8 * 8 + blue / 32,
            );
            red * 65_536 + green * 256 + blue
        }
    }
}

fn put_bytes(out: &mut Vec<u8>, coding: Coding, pixel: Pixel) -> Result<(), AllocError> {
    let number = pixel.get();
    match coding {
        Coding::Exact => out.extend_from_slice(&(number | 0xff00_0000).to_le_bytes()),
        Coding::Lossy => {
            let bits = (number >> 8 & 0xf800) | (number >> 5 & 0x07e0) | (number >> 3 & 0x1f);
            out.extend_from_slice(&(bits as u16).to_le_bytes())
        }
    }
}

/// The bytes of rows of so many pixels, with a gap behind each.
fn rows(
    alloc: Global,
    coding: Coding,
    w: usize,
    gap: u32,
    pixels: &[Pixel],
) -> Result<Vec<u8>, Fail>
    requires { 1 ≤ w }
{
    let mut bytes = Vec::new(alloc);
    for row in pixels.chunks(w) {
        for pixel in row {
            put_bytes(&mut bytes, coding, *pixel)?;
        }
        for _ in 0..gap {
            bytes.push(0xaa)?;
        }
    }
    Ok(bytes)
}

/// Whether these are what the pixels show.
fn are_shown(coding: Coding, found: &[Pixel], pixels: &[Pixel]) -> bool {
    if found.len() != pixels.len() {
        return false;
    }
    for i in 0..pixels.len() {
        if found[i].get() != shown(coding, pixels[i]) {
            return false;
        }
    }
    true
}

/// Decodes the bytes of one width with this gap behind each row by both bodies: whether both show each pixel.
fn is_decoded(
    alloc: Global,
    coding: Coding,
    w: u32,
    gap: u32,
    pixels: &[Pixel],
) -> Result<bool, Fail>
    requires some { 1 ≤ w }
    requires few { w ≤ 40 }
    requires narrow { gap ≤ 3 }
{
    let bytes = rows(alloc, coding, w as usize, gap, pixels)?;
    let stride = w * pixel_size(coding) + gap;
    let decoded = decode(alloc, coding, w, HIGH, stride, bytes.as_slice())?;
    let plain = plain_decoding(alloc, coding, w, HIGH, stride, bytes.as_slice())?;
    Ok(are_shown(coding, decoded.as_slice(), pixels) && are_shown(coding, plain.as_slice(), pixels))
}

/// Codes the pixels by both bodies: whether both give these bytes.
fn is_coded(
    alloc: Global,
    coding: Coding,
    w: u32,
    pixels: Vec<Pixel>,
    bytes: &[u8],
) -> Result<bool, Fail> {
    if pixels.len() > 120 {
        return Err("at most 40 columns of 3 rows".into());
    }
    let plain = plain_encoding(alloc, coding, pixels.as_slice())?;
    let made = encode(alloc, capture_of(alloc, coding, w, HIGH, pixels)?)?;
    Ok(made.bytes.as_slice() == bytes && plain.as_slice() == bytes)
}

#[test]
fn codes_widths_1_to_40(rt: HostRuntime) -> Result<(), Fail> {
    let alloc = rt.alloc();
    for coding in [Coding::Exact, Coding::Lossy] {
        for w in 1..41 {
            let pixels = noise(alloc, w * HIGH)?;
            let bytes = rows(alloc, coding, w as usize, 0, pixels.as_slice())?;
            for gap in [0, GAP] {
                assert!(rt;
                    is_decoded(alloc, coding, w, gap, pixels.as_slice())?,
                    "width {w}, {coding:?}"
                );
            }
            assert!(rt;
                is_coded(alloc, coding, w, pixels, bytes.as_slice())?,
                "width {w}, {coding:?}"
            );
        }
    }
    Ok(())
}

/// Faults, and how they are printed.
const FAULTS: &[(DataFault, &str)] = &[
    (
        DataFault::Stride(1),
        "rows of 1 bytes have no room for their pixels",
    ),
    (
        DataFault::Length(3),
        "3 bytes are not the stride times the height",
    ),
    (DataFault::NoMemory, "out of memory"),
];

#[test]
fn prints_faults(rt: HostRuntime) -> Result<(), Fail> {
    for (fault, text) in FAULTS {
        let printed = format!(in rt.alloc(); "{fault}")?;
        assert_eq!(rt; printed.as_str(), *text);
    }
    Ok(())
}
