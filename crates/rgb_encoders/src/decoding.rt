// Pixels from bytes.
ghost use Rattle.std.specs.Prelude.{◌≤◌};
ghost use Rattle.rgb_encoders.specs.Decoded.{DecodeGives};

use crate::blocks::block_decoding;
use crate::fault::DataFault;
use crate::sizes::pixel_size;
use std::alloc::Global;
use xp_base::{Coding, Pixels};

/// The pixels of `w` columns and `h` rows. Each row begins `stride` bytes after the row above, and what
/// it has past its pixels is skipped.
pub fn decode(
    alloc: Global,
    coding: Coding,
    w: u32,
    h: u32,
    stride: u32,
    bytes: &[u8],
) -> Result<Pixels, DataFault>
    requires some_columns { 1 ≤ w }
    requires some_rows { 1 ≤ h }
    requires wide { w ≤ 4096 }
    requires high { h ≤ 4096 }
    ensures { DecodeGives coding w h stride bytes.now result }
{
    if stride < w * pixel_size(coding) {
        return Err(DataFault::Stride(stride));
    }
    if bytes.len() != stride as usize * h as usize {
        return Err(DataFault::Length(bytes.len()));
    }
    match block_decoding(alloc, coding, w, h, stride, bytes) {
        Ok(pixels) => Ok(Pixels::new(pixels)),
        Err(_) => Err(DataFault::NoMemory),
    }
}
