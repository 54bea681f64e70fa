// What a result is to a source.
ghost use Rattle.std.specs.Prelude.{◌≡◌, Some};
ghost use Rattle.delivery_model.specs.Events.{filing_of};
ghost use Rattle.window_source.specs.Drawn.{is_to};
ghost use Rattle.window_source.specs.Standings.{standing_of};

use crate::source::WindowSource;
use capture_jobs::Done;
use draw_sequencer::same_capture;
use rect_regions::Points;
use xp_base::Capture;

/// What a result is to a source.
#[derive(Clone, Copy, Debug, PartialEq, Eq)]
pub(crate) enum Standing {
    /// No job in hand has its number.
    Late,
    /// The job in hand with its number has another capture.
    Foreign,
    /// It is that job's.
    Own,
}

impl<R: Points> WindowSource<R> {
    // Captures are compared by value.
    pub(crate) fn standing(&self, done: &Done) -> Standing
        ensures { result ≡ standing_of (is_to done.now self.now) }
    {
        match self.in_hand(done.id()) {
            None => Standing::Late,
            Some(capture) => standing_with(capture, done.capture()),
        }
    }
}

/// What a result with a capture is to a job with another, or the same.
fn standing_with(held: &Capture, given: &Capture) -> Standing
    ensures { result ≡ standing_of (filing_of (Some held.now) given.now) }
{
    if same_capture(held, given) {
        return Standing::Own;
    }
    Standing::Foreign
}
