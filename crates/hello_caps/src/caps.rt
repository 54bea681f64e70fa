// What is read of a hello.
use xp_base::Bytes;

/// What a client can take, and who it is, by its hello.
#[derive(Debug, Drop)]
pub struct Caps {
    /// Whether draws may be lossy.
    pub lossy: bool,
    /// By which a client that returns is known: 1 to 64 bytes, or none where it is anonymous.
    pub uuid: Bytes,
}

/// Why a client's first packet is refused. Where several hold, the first of them here is named.
#[derive(Clone, Copy, Debug, PartialEq, Eq)]
pub enum HelloFault {
    /// It is not a list of the byte string `hello`, a dictionary, and any further items.
    NotHello,
    /// Its encodings are a list with neither `rgb32` nor `rgb`.
    NoEncoding,
    /// Its uuid is a byte string of this many bytes, more than 64.
    Uuid(u64),
}

/// What reading a client's first packet answers.
#[derive(Debug, Drop)]
pub enum HelloRead {
    Accepted(Caps),
    Refused(HelloFault),
    NoMemory,
}
