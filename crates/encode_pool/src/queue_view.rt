// What a pass of the queue of jobs knows.
use capture_jobs::Job;
use std::collections::LinkedList;

/// What a pass may do.
pub enum Standing {
    /// It pushes, pops, splits further passes off and takes them in again.
    First,
    /// It pops.
    Further,
    /// It was taken in.
    Spent,
}

/// What a pass did. No value of it is made.
pub struct QueueView {
    pub standing: Standing,
    /// What it popped itself, in order.
    pub popped: LinkedList<Job>,
    /// Of the first pass alone: what it pushed, in order.
    pub pushed: LinkedList<Job>,
    /// Of the first pass alone: what each pass had popped that it took in.
    pub taken: LinkedList<LinkedList<Job>>,
    /// Of the first pass alone: how many passes it split off and has not taken in.
    pub split_off: u64,
}
