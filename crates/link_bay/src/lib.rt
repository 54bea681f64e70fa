//! Connections as a server sees them: the trait of their provider, the orders that a provider in
//! memory takes, and providers in memory.
#![tactic(auto)]

mod bay;
mod counters;
mod inbound;
mod laws;
mod mute_bay;
mod one_bay;
mod order;
mod passing_bay;
mod peer;
mod played;
mod tape_bay;
mod writes;

pub use bay::{Accept, Bay, Gave, Wrote};
pub use counters::Counters;
pub use inbound::Inbound;
pub use laws::{an_announcement_is_answered_by_a_map, appending_follows_on};
pub use mute_bay::MuteBay;
pub use one_bay::OneBay;
pub use order::{Kind, Name, Order};
pub use passing_bay::PassingBay;
pub use peer::EXACT_HELLO;
pub use tape_bay::TapeBay;
pub use writes::Write;
