//! Tests of the libraries of windows: what no clause of them says, in crates above what they test, so
//! that no library is proved twice.
#![tactic(auto)]

#[cfg(test)]
mod base;
#[cfg(test)]
mod bays;
#[cfg(test)]
mod first_scripts;
#[cfg(test)]
mod windows;
