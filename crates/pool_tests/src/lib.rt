//! Tests of encoding beside the session: the queue of jobs, in one thread and in four, and the worker
//! over a board in memory. They stand above the libraries, so that no library is proved twice.
#![tactic(auto)]

#[cfg(test)]
mod queue;
#[cfg(test)]
mod samples;
#[cfg(test)]
mod threads;
#[cfg(test)]
mod worker;
