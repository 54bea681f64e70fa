// What bytes that were read come to.
use client_talk::Ending;

/// What bytes that were read come to; each with how many messages were ignored.
#[derive(Clone, Copy, Debug, PartialEq, Eq)]
pub enum Heard {
    /// Each packet that is then whole was handled.
    GoesOn(u64),
    /// The connection has to end so.
    Ends(Ending, u64),
    /// The packets handled before stand.
    NoMemory(u64),
}
