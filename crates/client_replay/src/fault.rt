// How a piece of bytes is taken.
use packet_frames::FrameFault;

/// Why the bytes that were sent to a client show no more.
#[derive(Clone, Copy, Debug, PartialEq, Eq)]
pub enum ReplayFault {
    /// The bytes do not go on as packets do.
    Frame(FrameFault),
    /// The first item of a packet that is missing or does not fit, by its place in the list.
    Shape(u8),
    /// A draw's bytes are not its pixels.
    Data,
}

/// How a piece was taken.
#[derive(Clone, Copy, Debug, PartialEq, Eq)]
pub enum Fed {
    /// Every packet so far is shown.
    Ok,
    /// The first fault, with the place of its byte or of its packet's main header. Nothing behind it is shown.
    Bad(u64, ReplayFault),
    /// From now on nothing more is shown.
    NoMemory,
}
