//! Tests of what one client has in hand of one window: its jobs, and its draws that are not acknowledged.
//! They stand above the libraries, so that no library is proved twice.
#![tactic(auto)]

#[cfg(test)]
mod acks;
#[cfg(test)]
mod jobs;
#[cfg(test)]
mod samples;
#[cfg(test)]
mod window;
