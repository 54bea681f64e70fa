// A capture with its bytes.
ghost use Rattle.std.specs.Prelude.{◌≡◌, IfOk};
ghost use Rattle.std.specs.Arc.{arc_value};
ghost use Rattle.rgb_encoders.specs.Encoding.{encoding_of};

use crate::blocks::block_encoding;
use std::alloc::Global;
use std::marker::Model;
use std::sync::Arc;
use xp_base::{Capture, NoMemory};

/// A capture and the bytes that its coding gives its pixels, row by row without a gap.
#[derive(Debug, Drop)]
pub struct Encoded {
    pub capture: Arc<Capture>,
    pub bytes: Vec<u8>,
}

impl Model for Encoded {
    ghost use Rattle.std.specs.Arc.{arc_value};
    ghost use Rattle.rgb_encoders.specs.Encoding.{Encoding, IsEncoding};

    ghost Value = { Encoding };

    ghost view = { λ e. record { capture = arc_value e.capture; bytes = e.bytes.items } };

    ghost invariant = { λ e. IsEncoding (record { capture = arc_value e.capture; bytes = e.bytes.items }) };
}

/// Codes a capture as it asks to be coded.
pub fn encode(alloc: Global, capture: Arc<Capture>) -> Result<Encoded, NoMemory>
    ensures { IfOk result (λ encoded. encoded ≡ encoding_of (arc_value capture)) }
{
    // A rectangle, and so a capture, has at most 4,096 times 4,096 pixels.
    let _count = capture.rect.area();
    let bytes = block_encoding(alloc, capture.coding, capture.pixels.as_slice())?;
    Ok(Encoded { capture, bytes })
}
