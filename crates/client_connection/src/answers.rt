// What a capture and a write answer. `Sent::Closed` and `Sent::Ended` are answers of the session alone.
use crate::ends::End;

/// How a capture went.
#[derive(Clone, Copy, Debug, PartialEq, Eq)]
pub enum Captured {
    /// The client is not attached, or has no such window.
    Closed,
    /// The client has not mapped the window.
    Unmapped,
    /// Nothing is to be drawn.
    Clean,
    /// Not before this moment, in milliseconds. Not built yet, as the next two.
    Early(u64),
    /// So many draws and jobs are not acknowledged yet.
    Congested(u32),
    /// So many pixels and bytes wait.
    Heavy(u64),
    /// No further number is left.
    Spent,
    NoMemory,
    /// So many captures were made.
    Jobs(u32),
}

/// How a write to a connection went.
#[derive(Clone, Copy, Debug, PartialEq, Eq)]
pub enum Sent {
    /// The connection is not open.
    Closed,
    /// Nothing waits to be written.
    Idle,
    /// So many bytes were taken, at least 1.
    Took(u32),
    /// The connection took nothing now.
    Again,
    /// The connection was dropped with this end.
    Ended(End),
    NoMemory,
}

/// A write failed; nothing was taken.
#[derive(Clone, Copy, Debug, PartialEq, Eq)]
pub struct Broken;
