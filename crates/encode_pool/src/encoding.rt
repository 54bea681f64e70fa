// One job, encoded.
ghost use Rattle.std.specs.Prelude.{◌≡◌, IfOk, IfErr};
ghost use Rattle.encode_pool.specs.Finished.{finished};

use capture_jobs::{Done, Job};
use rgb_encoders::encode;
use std::alloc::Global;
use std::sync::Arc;

/// The job with the encoding of its capture. `Err` is want of memory, and hands the job back.
pub fn encode_job(alloc: Global, job: Job) -> Result<Done, Job>
    ensures ok { IfOk result (λ done. done ≡ finished job) }
    ensures err { IfErr result (λ back. back ≡ job) }
{
    let Ok(capture) = Arc::try_clone(job.capture()) else {
        return Err(job);
    };
    match encode(alloc, capture) {
        Ok(encoded) => Ok(job.done(encoded)),
        Err(_) => Err(job),
    }
}
