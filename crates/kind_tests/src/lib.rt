//! Tests of the kinds of packets. Nothing stands on this crate.
#![tactic(auto)]

#[cfg(test)]
mod kinds;
