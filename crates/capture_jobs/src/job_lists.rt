// Lists of jobs, which contracts see as lists.
ghost use Rattle.std.specs.Prelude.{◌≡◌};

use crate::job::Job;
use std::marker::Model;

/// The jobs that one capture made, in the order of its plan.
#[derive(Drop)]
pub struct NewJobs(Vec<Job>);

impl Model for NewJobs {
    ghost use Rattle.std.specs.Prelude.{List};
    ghost use Rattle.capture_jobs.specs.Jobs.{EncodingJob};

    ghost Value = { List EncodingJob };

    ghost view = { λ j. j.0.items };
}

impl NewJobs {
    pub fn new(items: Vec<Job>) -> NewJobs
        ensures { result ≡ items.items }
    {
        NewJobs(items)
    }

    pub fn as_slice(&self) -> &[Job]
        ensures { result.now ≡ self.now }
    {
        self.0.as_slice()
    }

    pub fn into_vec(self) -> Vec<Job>
        ensures { result.items ≡ self }
    {
        let NewJobs(items) = self;
        items
    }
}

/// Jobs that were taken and not brought back yet, in the order in which they were taken.
#[derive(Drop)]
pub struct Held(Vec<Job>);

impl Model for Held {
    ghost use Rattle.std.specs.Prelude.{List};
    ghost use Rattle.capture_jobs.specs.Jobs.{EncodingJob};

    ghost Value = { List EncodingJob };

    ghost view = { λ j. j.0.items };
}

impl Held {
    pub fn new(items: Vec<Job>) -> Held
        ensures { result ≡ items.items }
    {
        Held(items)
    }

    pub fn as_slice(&self) -> &[Job]
        ensures { result.now ≡ self.now }
    {
        self.0.as_slice()
    }

    pub fn into_vec(self) -> Vec<Job>
        ensures { result.items ≡ self }
    {
        let Held(items) = self;
        items
    }
}
