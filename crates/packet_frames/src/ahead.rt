// Chunks ahead of their packet.

/// A chunk ahead of its packet: the item that its bytes stand for, where its header begins, and where its bytes
/// end. Places count from the packet's first byte.
#[derive(Clone, Copy, Debug, PartialEq, Eq)]
pub(crate) struct Ahead {
    pub index: u8,
    pub at: usize,
    pub end: usize,
}
