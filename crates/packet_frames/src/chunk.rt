// Chunks to write.
use std::marker::Model;

/// A chunk ahead of a packet: the place of the item that its bytes stand for in the packet's list, which must
/// be an empty byte string there and not at the place 0, and its bytes.
#[derive(Debug, Drop)]
pub struct Chunk {
    pub index: u8,
    pub bytes: Vec<u8>,
}

impl Model for Chunk {
    ghost use Rattle.packet_frames.specs.Written.{Carried};

    ghost Value = { Carried };

    ghost view = { λ c. record { index = c.index; bytes = c.bytes.items } };
}
