//! What a client shows of the bytes sent to it, and clients in memory that answer.
#![tactic(auto)]

mod answering;
mod drawing;
mod fault;
mod hello;
mod listening;
mod painting;
mod peer;
mod peer_bay;
mod replay;
mod step;

pub use fault::{Fed, ReplayFault};
pub use hello::exact_hello;
pub use peer_bay::PeerBay;
pub use replay::Replay;
