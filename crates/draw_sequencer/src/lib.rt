//! The jobs in hand of one window of one client, which leave in the order of their captures.
#![tactic(auto)]

mod captures;
mod in_hand;
mod kept;
mod laws;
mod ready;
mod sequencer;

pub use captures::same_capture;
pub use in_hand::InHand;
pub use kept::Kept;
pub use laws::{as_many_leave_as_are_ready, results_change_no_order};
pub use ready::Ready;
pub use sequencer::Sequencer;
