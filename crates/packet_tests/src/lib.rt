//! Tests of what stands between packets and a client: pictures, replies, and clients in memory. Nothing stands on this crate.
#![tactic(auto)]

#[cfg(test)]
mod packets;
#[cfg(test)]
mod peers;
#[cfg(test)]
mod replays;
