// What a source owes.
ghost use Rattle.std.specs.Prelude.{◌≡◌, true};
ghost use Rattle.xp_base.specs.Points.{is_within};
ghost use Rattle.rect_regions.specs.BitRows.{AllWithin};
ghost use Rattle.delivery_model.specs.Grids.{points as points_where};
ghost use Rattle.delivery_model.specs.Events.{is_empty};
ghost use Rattle.window_source.specs.Owed.{owes, owed_count, is_clear};

use crate::source::WindowSource;
use client_outbox::Outbox;
use delivery_model::{empty_sets_have_no_point, points_are_their_tests};
use rect_regions::Points;
use resize_cancel::jobs_relieve_as_the_models;

impl<R: Points> WindowSource<R> {
    /// Whether the point of the window is owed, with what waits in the outbox of its client.
    pub fn owes(&self, x: u32, y: u32, out: &Outbox<R>) -> bool
        ensures { result ≡ owes R.has self.now out.now.waiting.packets x y }
    {
        if x >= self.w || y >= self.h {
            return false;
        }
        self.owes_inside(x, y, out)
    }

    // The same of a point in the window.
    fn owes_inside(&self, x: u32, y: u32, out: &Outbox<R>) -> bool
        requires inside { is_within self.now.wide self.now.high x y ≡ true }
        ensures { result ≡ owes R.has self.now out.now.waiting.packets x y }
    {
        points_are_their_tests();
        jobs_relieve_as_the_models::<R>();
        let to_come = self.batch.pending().has(x, y) || self.jobs.owes(x, y);
        to_come || out.owes(self.wid, x, y) || self.lossy.wanted().has(x, y)
    }

    /// How many points of the window are owed, with what waits in the outbox of its client.
    pub fn owed_count(&self, out: &Outbox<R>) -> u64
        ensures { result ≡ owed_count R.has self.now out.now.waiting.packets }
    {
        let mut count: u64 = 0;
        for place in 0..self.w * self.h {
            if self.owes(place % self.w, place / self.w, out) {
                count += 1;
            }
        }
        count
    }
    /// Whether nothing is left to be drawn of the window: the client does not show it, or no job is in hand, and no point is
    /// pending or lossy. Draws of it may wait still.
    pub fn is_clear(&self) -> bool
        ensures { result ≡ is_clear self.now }
    {
        if !self.mapped {
            return true;
        }
        points_are_their_tests();
        self.jobs.is_empty()
            && has_none(self.batch.pending(), self.w, self.h)
            && has_none(self.lossy.wanted(), self.w, self.h)
    }
}

/// Whether there are no points. All lie in a window of this size.
fn has_none<R: Points>(points: &R, w: u32, h: u32) -> bool
    requires { AllWithin w h (R.has points.now) }
    ensures { result ≡ is_empty (points_where w h (R.has points.now)) }
{
    let _size = (w, h);
    empty_sets_have_no_point();
    points.bounds().is_none()
}
