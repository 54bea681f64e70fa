//! Tests of what one capture takes: its plan, the pixels of its rectangles, and the jobs that carry them.
//! They stand above the libraries, so that no library is proved twice.
#![tactic(auto)]

#[cfg(test)]
mod captures;
#[cfg(test)]
mod jobs;
#[cfg(test)]
mod plans;
#[cfg(test)]
mod samples;
