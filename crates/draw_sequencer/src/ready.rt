// A job whose encoding came back.
use rect_regions::Points;
use rgb_encoders::Encoded;
use std::marker::Model;
use xp_base::JobId;

/// A job that left: its number, its encoding, and the points that its draw relieves.
#[derive(Drop)]
pub struct Ready<R: Points> {
    pub id: JobId,
    pub encoded: Encoded,
    pub relief: R,
}

impl<R: Points> Model for Ready<R> {
    ghost use Rattle.draw_sequencer.specs.InHand.{ReadyDraw};

    ghost Value = { ReadyDraw R };

    ghost view = { λ r. record { number = r.id.0; encoded = r.encoded; relief = r.relief } };
}
