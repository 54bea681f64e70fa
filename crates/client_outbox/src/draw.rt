// What draw a packet is.
use xp_base::{Coding, Rect};

/// A draw's sequence number, its rectangle and its coding.
#[derive(Clone, Copy, Debug, PartialEq, Eq)]
pub struct Draw {
    pub sequence: u64,
    pub rect: Rect,
    pub coding: Coding,
}
