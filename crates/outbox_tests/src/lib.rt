//! Tests of the packets that wait to be written to one client. They stand above the library, so that it
//! is not proved twice.
#![tactic(auto)]

#[cfg(test)]
mod line;
#[cfg(test)]
mod many;
#[cfg(test)]
mod reliefs;
#[cfg(test)]
mod sending;
