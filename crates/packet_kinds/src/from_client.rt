// Packets from a client.
use bencode_values::{Items, Value};

/// A packet from a client to the server. `further` are the items past those that are named; they are not
/// looked at. A window's number may be any integer: one that is no window's number names no window.
#[derive(Debug, Drop)]
pub enum FromClient {
    Hello {
        caps: Option<Value>,
    },
    /// The client shows the window.
    MapWindow {
        wid: i64,
        further: Items,
    },
    /// The client does not show the window any more.
    UnmapWindow {
        wid: i64,
        further: Items,
    },
    /// The client has drawn a draw, and took so long for it. A negative time: it could not.
    DamageSequence {
        packet_sequence: i64,
        wid: i64,
        width: i64,
        height: i64,
        decode_time: i64,
        message: Option<Value>,
    },
    /// The client wants the whole window anew.
    BufferRefresh {
        wid: i64,
        further: Items,
    },
    /// The client wants this time back.
    Ping {
        t: i64,
        further: Items,
    },
    /// The client leaves.
    Disconnect {
        further: Items,
    },
    /// A packet of another name.
    Other,
}
