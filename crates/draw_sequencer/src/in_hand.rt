// One job in hand.
ghost use Rattle.std.specs.Prelude.{◌≡◌, nat_eq};

use rect_regions::Points;
use rgb_encoders::Encoded;
use std::marker::Model;
use std::sync::Arc;
use xp_base::{Capture, JobId};

/// A capture that is being encoded, the points of the window that its draw will relieve, and its
/// encoding once that came back, which is that of its capture.
#[derive(Drop)]
pub struct InHand<R: Points> {
    pub id: JobId,
    pub capture: Arc<Capture>,
    pub relief: R,
    pub encoded: Option<Encoded>,
}

impl<R: Points> Model for InHand<R> {
    ghost use Rattle.std.specs.Arc.{arc_value};
    ghost use Rattle.draw_sequencer.specs.InHand.{HeldJob, IsOwn};

    ghost Value = { HeldJob R };

    ghost view = { λ j. record {
      number = j.id.0;
      capture = arc_value j.capture;
      relief = j.relief;
      encoded = j.encoded;
    } };

    ghost invariant = { λ j. IsOwn j.encoded (arc_value j.capture) };
}

impl<R: Points> InHand<R> {
    ghost use Rattle.draw_sequencer.specs.InHand.{is_ready};

    // Whether it has this number.
    pub(crate) fn has_number(&self, id: JobId) -> bool
        ensures { result ≡ nat_eq self.now.number id.0 }
    {
        self.id == id
    }

    // Whether it has its encoding, or this number.
    pub(crate) fn is_ready(&self, id: JobId) -> bool
        ensures { result ≡ is_ready id.0 self.now }
    {
        self.encoded.is_some() || self.id == id
    }
}
