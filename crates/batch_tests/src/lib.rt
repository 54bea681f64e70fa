//! Tests of the parts that decide when a window is captured: what no clause of them says, in a crate
//! above what they test, so that no library is proved twice.
#![tactic(auto)]

#[cfg(test)]
mod damage;
#[cfg(test)]
mod lossy;
