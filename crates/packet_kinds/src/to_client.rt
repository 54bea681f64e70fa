// Packets from the server.
use bencode_values::Value;
use xp_base::{Bytes, Coding, Wid};

/// A packet from the server to a client. Packets are named after Xpra's; their items and the order of these
/// are this project's own.
#[derive(Debug, Drop)]
pub enum ToClient {
    Hello {
        caps: Option<Value>,
    },
    /// A new window on top, all pixels 0. Its place is in pixels of the desktop, its sides 1 to 4,096 pixels.
    NewWindow {
        wid: Wid,
        x: i32,
        y: i32,
        w: u32,
        h: u32,
    },
    /// The window goes.
    LostWindow {
        wid: Wid,
    },
    /// The window has this size from now on.
    WindowResized {
        wid: Wid,
        w: u32,
        h: u32,
    },
    /// The window has this place from now on; the size is ignored.
    WindowMoveResize {
        wid: Wid,
        x: i32,
        y: i32,
        w: u32,
        h: u32,
    },
    /// The window goes on top.
    RaiseWindow {
        wid: Wid,
    },
    /// Pixels of a rectangle of the window: its place and size in pixels, the coding of the bytes, and how many
    /// bytes one row is after the row above.
    Draw {
        wid: Wid,
        x: u32,
        y: u32,
        w: u32,
        h: u32,
        coding: Coding,
        bytes: Bytes,
        packet_sequence: i64,
        rowstride: u32,
    },
    /// The time of a `ping`, as the client gave it.
    PingEcho {
        t: i64,
    },
    Disconnect {
        reason: Option<Value>,
    },
    /// A packet of another name.
    Other,
}
