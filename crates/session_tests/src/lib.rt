//! Tests of one connection's client and of the session, each crate's in a module of its own. No library has tests of its
//! own, since a crate with tests is proved twice.
#![tactic(auto)]

#[cfg(test)]
mod client;
#[cfg(test)]
mod session;
