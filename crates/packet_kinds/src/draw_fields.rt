// A draw without its bytes.
use xp_base::{Coding, Wid};

/// What a draw says beside its bytes.
#[derive(Clone, Copy, Debug)]
pub(crate) struct DrawFields {
    pub(crate) wid: Wid,
    pub(crate) x: u32,
    pub(crate) y: u32,
    pub(crate) w: u32,
    pub(crate) h: u32,
    pub(crate) coding: Coding,
    pub(crate) packet_sequence: i64,
    pub(crate) rowstride: u32,
}
