// What is answered to those who take jobs and bring results.
use crate::done::Done;
use crate::job::Job;

/// What is taken of the jobs that wait.
#[derive(Drop)]
pub enum Taken {
    /// The first of them.
    Job(Job),
    /// None waits.
    Nothing,
}

/// What became of a result.
#[derive(Drop)]
pub enum Filed {
    /// It is kept with its job.
    Filed,
    /// No job in hand has its number. It is dropped.
    Late,
    /// The job in hand with its number has another capture. The result is handed back.
    Foreign(Done),
    /// No memory was to be had. The result is handed back, and can be filed again.
    Back(Done),
}
