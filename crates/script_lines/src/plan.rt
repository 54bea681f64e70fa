// Plan lines.
use xp_base::Wid;

/// A line that makes one step of the session, or asks it one question. `k` is a client's number, in the
/// order in which peers were ordered.
#[derive(Clone, Copy, Debug, PartialEq, Eq)]
pub enum PlanLine {
    /// The next client is accepted.
    Accept,
    /// A piece of what the client says is read.
    Read { k: u32 },
    /// What the client is owed of the window is captured.
    Capture { k: u32, wid: Wid },
    /// A waiting job is taken.
    Take,
    /// The job with this number is encoded and filed.
    Finish { j: u64 },
    /// At most so many bytes are sent to the client.
    Send { k: u32, max: u32 },
    /// How many pixels of the window the client is owed.
    Owed { k: u32, wid: Wid },
    /// The clock goes on by so many milliseconds.
    Wait { ms: u32 },
    /// One turn over all clients.
    Turn,
}
