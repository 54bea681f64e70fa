// A capture on its way to an encoder.
ghost use Rattle.std.specs.Prelude.{◌≡◌};
ghost use Rattle.std.specs.Arc.{arc_value};

use crate::done::Done;
use rgb_encoders::Encoded;
use std::marker::Model;
use std::sync::Arc;
use xp_base::{Capture, Conn, JobId, Wid};

/// A capture that is to be encoded, with its number and the connection and the window that it is for.
/// It is not cloned: whoever has it is to bring it back.
#[derive(Drop)]
pub struct Job {
    id: JobId,
    conn: Conn,
    wid: Wid,
    capture: Arc<Capture>,
}

impl Model for Job {
    ghost use Rattle.std.specs.Arc.{arc_value};
    ghost use Rattle.capture_jobs.specs.Jobs.{EncodingJob};

    ghost Value = { EncodingJob };

    ghost view = { λ j. record { number = j.id.0; conn = j.conn.0; wid = j.wid; capture = arc_value j.capture } };
}

impl Job {
    pub fn new(id: JobId, conn: Conn, wid: Wid, capture: Arc<Capture>) -> Job
        ensures { result ≡ record { number = id.0; conn = conn.0; wid = wid; capture = arc_value capture } }
    {
        Job {
            id,
            conn,
            wid,
            capture,
        }
    }

    pub fn id(&self) -> JobId
        ensures { result.0 ≡ self.now.number }
    {
        self.id
    }

    pub fn conn(&self) -> Conn
        ensures { result.0 ≡ self.now.conn }
    {
        self.conn
    }

    pub fn wid(&self) -> Wid
        ensures { result ≡ self.now.wid }
    {
        self.wid
    }

    pub fn capture(&self) -> &Arc<Capture>
        ensures { arc_value result.now ≡ self.now.capture }
    {
        &self.capture
    }

    /// The job with its encoding, which is that of its capture.
    pub fn done(self, e: Encoded) -> Done
        requires { e.capture ≡ self.capture }
        ensures { result ≡ record { job = self; encoding = e } }
    {
        Done::new(self, e)
    }
}
