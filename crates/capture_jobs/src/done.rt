// A job that comes back from an encoder.
ghost use Rattle.std.specs.Prelude.{◌≡◌};
ghost use Rattle.std.specs.Arc.{arc_value};

use crate::job::Job;
use rgb_encoders::Encoded;
use std::marker::Model;
use std::sync::Arc;
use xp_base::{Capture, Conn, JobId, Wid};

/// A job with its encoding, which is that of its own capture by this type. It is not cloned.
#[derive(Drop)]
pub struct Done {
    job: Job,
    encoded: Encoded,
}

impl Model for Done {
    ghost use Rattle.capture_jobs.specs.Jobs.{FinishedJob, IsOwnResult};

    ghost Value = { FinishedJob };

    ghost view = { λ d. record { job = d.job; encoding = d.encoded } };

    ghost invariant = { λ d. IsOwnResult (record { job = d.job; encoding = d.encoded }) };
}

impl Done {
    ghost use Rattle.capture_jobs.specs.Jobs.{IsOwnResult};

    // Made by `Job::done` alone.
    pub(crate) fn new(job: Job, encoded: Encoded) -> Done
        requires { encoded.capture ≡ job.capture }
        ensures { result ≡ record { job = job; encoding = encoded } }
    {
        Done { job, encoded }
    }

    pub fn id(&self) -> JobId
        ensures { result.0 ≡ self.now.job.number }
    {
        self.job.id()
    }

    pub fn conn(&self) -> Conn
        ensures { result.0 ≡ self.now.job.conn }
    {
        self.job.conn()
    }

    pub fn wid(&self) -> Wid
        ensures { result ≡ self.now.job.wid }
    {
        self.job.wid()
    }

    pub fn capture(&self) -> &Arc<Capture>
        ensures { arc_value result.now ≡ self.now.job.capture }
    {
        self.job.capture()
    }

    /// Its encoding; and what the type keeps, as a fact for proofs: it is that of the job's capture.
    pub fn encoded(&self) -> &Encoded
        ensures value { result.now ≡ self.now.encoding }
        ensures kept { IsOwnResult self.now }
    {
        &self.encoded
    }

    pub fn into_encoded(self) -> Encoded
        ensures value { result ≡ self.encoding }
        ensures kept { IsOwnResult self }
    {
        let Done { job: _, encoded } = self;
        encoded
    }
}
