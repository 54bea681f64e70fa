// How a send went.

/// How a send went.
#[derive(Clone, Copy, Debug, PartialEq, Eq)]
pub enum Out {
    /// So many bytes were taken, at least 1.
    Took(u32),
    /// Nothing waits.
    Idle,
    /// The write took nothing.
    Again,
    /// The write failed.
    Failed,
    /// The provider found no memory.
    NoMemory,
}
