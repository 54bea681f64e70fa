// What a framer answers.
use crate::fault::FrameFault;
use bencode_values::Value;

/// The next packet of a stream, or why there is none.
#[derive(Debug, Drop)]
pub enum Next {
    /// A packet: the place of its main header in the stream, and its value, with the bytes of its chunks put in.
    Packet(u64, Value),
    /// All packets were given that the bytes so far hold.
    Need,
    /// All packets before this fault were given. Its place counts from the stream's first byte.
    Bad(u64, FrameFault),
    NoMemory,
}
