//! Tests of scripts: their lines, their faults, their limits, and scripts made of a number. Nothing stands
//! on this crate.
#![tactic(auto)]

#[cfg(test)]
mod generated;
#[cfg(test)]
mod limits;
#[cfg(test)]
mod lines;
#[cfg(test)]
mod long_texts;
#[cfg(test)]
mod numbers;
#[cfg(test)]
mod outcomes;
#[cfg(test)]
mod standing;
#[cfg(test)]
mod words;
