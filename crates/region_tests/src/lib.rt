//! Tests of sets of points: the worked regions, and the two types side by side.
#![tactic(auto)]

#[cfg(test)]
mod regions;
