// Packets that wait to be written.
use crate::points::Points;
use crate::source::Source;
use xp_base::{Bytes, Coding, Rect, Wid};

/// A packet that waits to be written. In a `Client` its bytes are not empty.
#[derive(Debug, Drop)]
pub struct Packet {
    pub bytes: Bytes,
    /// What it draws, where it is a draw.
    pub draw: Option<Draw>,
}

/// Which draw a packet is, and which points it repairs.
#[derive(Debug, Drop)]
pub struct Draw {
    pub wid: Wid,
    /// Its number among the draws of the window for the client.
    pub sequence: u64,
    pub rect: Rect,
    pub coding: Coding,
    /// The points that are owed until the packet is wholly written.
    pub relief: Points,
}

/// What a new window brings to a client: its source and its announcement.
#[derive(Debug, Drop)]
pub struct Announcement {
    pub source: Source,
    pub packet: Packet,
}
