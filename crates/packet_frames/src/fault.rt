// Why a stream is not one of packets.
use bencode_values::Why;

/// Why a stream of bytes does not go on as packets do. Each fault has a place, which counts from the stream's
/// first byte. The order is this project's own: a header's byte is judged as soon as it is there, its size once
/// its four bytes are, and the content once it is whole.
#[derive(Clone, Copy, Debug, PartialEq, Eq)]
pub enum FrameFault {
    /// Byte 0 of the header, where it is not 0x50.
    Magic,
    /// Byte 1, the flags, where they are neither 0x00 nor 0x08.
    Flags(u8),
    /// Byte 2, the compression level, where it is not 0.
    Level(u8),
    /// Byte 4, where the size in bytes 4 to 7 is above the limit, in bytes.
    Size(u32),
    /// Byte 3, the index of a chunk: an earlier chunk of the packet has it, or four chunks came before; or the
    /// packet has no empty byte string at that place of its list.
    Chunk(u8),
    /// The byte of the content from which on it spells no value.
    Payload(Why),
    /// The place behind the content, where the content is a part of a spelling.
    Cut,
    /// The first byte behind the spelling, where the content goes on after it.
    Extra,
}
