// Script lines.
use crate::paint::Paint;
use crate::plan::PlanLine;
use link_bay::Order;

/// A line of a script.
#[derive(Debug, Drop)]
pub enum Line {
    Paint(Paint),
    /// An order for a peer, or for what a peer does.
    Peer(Order),
    Plan(PlanLine),
}
