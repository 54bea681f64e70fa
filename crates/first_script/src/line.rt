// Script lines.
use crate::paint::Paint;
use link_bay::Order;

/// A line of a script.
#[derive(Debug, Drop)]
pub enum Line {
    Paint(Paint),
    /// An order for a peer.
    Peer(Order),
}
