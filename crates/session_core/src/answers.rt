// What the calls of a session answer.
use client_connection::End;
use xp_base::Conn;

/// How a paint step went.
#[derive(Clone, Copy, Debug, PartialEq, Eq)]
pub enum Painted {
    /// The next paint line was applied.
    Done,
    /// There is no paint line left.
    Finished,
    NoMemory,
}

/// How an accept went.
#[derive(Clone, Copy, Debug, PartialEq, Eq)]
pub enum Accepted {
    /// As many connections are open as may be; the provider was not asked.
    Full,
    Conn(Conn),
    /// The provider has nobody now.
    Nobody,
    /// The provider failed.
    Failed,
    NoMemory,
}

/// How a read from a connection went.
#[derive(Clone, Copy, Debug, PartialEq, Eq)]
pub enum Received {
    /// The connection is not open.
    Closed,
    /// So many bytes were read, at least 1, and each packet that is whole was handled.
    Took(u32),
    /// There is nothing to read now.
    Again,
    /// The connection was dropped with this end.
    Ended(End),
    /// The connection was dropped with the end `Short`.
    NoMemory,
}
