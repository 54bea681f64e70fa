// One tape of the provider of tapes.

/// What one client says and takes, for tests.
#[derive(Drop)]
pub struct Inbound {
    /// All that the client says.
    pub bytes: Vec<u8>,
    /// Whether it ends the connection after its bytes; else it is there and says no more.
    pub ends: bool,
    /// The most bytes that one read gives, at least 1.
    pub piece: u32,
    /// The most bytes that one write takes.
    pub quota: u32,
    /// The numbers of the reads that fail, counted from 1. Such a read gives nothing.
    pub failing_reads: Vec<u64>,
    /// The numbers of the writes that fail, counted from 1. Such a write takes nothing.
    pub failing_writes: Vec<u64>,
}
