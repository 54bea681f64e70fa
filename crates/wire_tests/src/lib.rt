//! Tests of what stands between pixels and bytes: values, frames, hellos and codings. Nothing stands on this crate.
#![tactic(auto)]

#[cfg(test)]
mod codings;
#[cfg(test)]
mod frames;
#[cfg(test)]
mod hello;
#[cfg(test)]
mod values;
