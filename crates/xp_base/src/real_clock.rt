// The system's time.
ghost use Rattle.std.specs.Prelude.{◌≡◌, ◌≤◌, max, min};
ghost use Rattle.std.specs.Time.{instant_nanos};
ghost use Rattle.xp_base.specs.Clocks.{milliseconds_between};
ghost use Rattle.xp_base.specs.Counts.{greatest};

use crate::clock::Clock;
use std::time;
use std::time::Instant;

/// The adapter over the system's clock that only goes forward: the whole milliseconds since the clock was made. It never
/// gives less than before, and stands still while the system does not tell the time.
#[derive(Drop)]
pub struct RealClock<R: time::Clock + Drop> {
    system: R,
    start: Option<Instant>,
    latest: u64,
}

impl<R: time::Clock + Drop> RealClock<R> {
    pub fn new(system: R) -> RealClock<R>
        ensures { result.latest ≡ 0 }
    {
        let start = Instant::now(&system).ok();
        RealClock {
            system,
            start,
            latest: 0,
        }
    }
}

impl<R: time::Clock + Drop> Clock for RealClock<R> {
    ghost latest = { λ c. c.latest };

    fn now(&mut self) -> u64
        ensures latest { self.new.latest ≡ max self.old.latest result }
        ensures forward { self.old.latest ≤ result }
    {
        if let (Some(start), Ok(now)) = (self.start, Instant::now(&self.system)) {
            self.latest = self.latest.max(passed(start, now));
        }
        self.latest
    }
}

/// The whole milliseconds from `start` to `now`, at most the greatest `u64`.
fn passed(start: Instant, now: Instant) -> u64
    ensures { result ≡ min (milliseconds_between (instant_nanos start) (instant_nanos now)) greatest }
{
    now.duration_since(start)
        .as_millis()
        .min(u128::from(u64::MAX)) as u64
}
