// What the steps of a session answer.
use connection_ends::End;
use xp_base::Conn;

/// How a paint step went.
#[derive(Clone, Copy, Debug, PartialEq, Eq)]
pub enum Painted {
    /// The next paint line was applied.
    Done,
    /// There is no paint line left.
    Finished,
    NoMemory,
}

/// How an accept went.
#[derive(Clone, Copy, Debug, PartialEq, Eq)]
pub enum Accepted {
    /// Eight connections are open; the provider was not asked.
    Full,
    Conn(Conn),
    /// The provider has nobody now.
    Nobody,
    /// The provider failed.
    Failed,
    NoMemory,
}

/// How a read from a connection went.
#[derive(Clone, Copy, Debug, PartialEq, Eq)]
pub enum Received {
    /// The connection is not open.
    Closed,
    /// So many bytes were read, at least 1, and each packet that is then whole was handled.
    Took(u32),
    /// There is nothing to read now.
    Again,
    /// The connection was dropped with this end.
    Ended(End),
    /// The packets handled before stand, and the connection was dropped with the end `Short`.
    NoMemory,
}

/// How a write to a connection went.
#[derive(Clone, Copy, Debug, PartialEq, Eq)]
pub enum Sent {
    /// The connection is not open.
    Closed,
    /// Nothing waits to be written.
    Idle,
    /// So many bytes were taken, at least 1.
    Took(u32),
    /// The write took nothing.
    Again,
    /// The write failed, and the connection was dropped with this end.
    Ended(End),
    /// The provider found no memory.
    NoMemory,
}
