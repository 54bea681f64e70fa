// What the bytes of a packet begin with.
use crate::fault::FrameFault;
use bencode_values::Value;

/// What the bytes behind a packet begin with. Places count from the first of these bytes.
#[derive(Debug, Drop)]
pub(crate) enum Begun {
    /// A part of a packet, and still one with fewer than so many bytes more.
    Part(usize),
    /// A packet: the place of its main header, its value with the chunks put in, and how many bytes it has.
    Whole(usize, Value, usize),
    /// A fault, and its place.
    Wrong(usize, FrameFault),
}
