// Time that counts its readings.
ghost use Rattle.std.specs.Prelude.{◌≡◌, max};

use crate::clock::Clock;
use std::marker::Model;

/// Gives 0, 1, 2 and so on up to 2^62, and then stays there.
#[derive(Drop)]
pub struct StepClock {
    next: u64,
    latest: u64,
}

impl Model for StepClock {
    ghost use Rattle.xp_base.specs.Clocks.{CountedTime, IsCounted};

    ghost Value = { CountedTime };

    ghost view = { λ c. record { next = c.next; latest = c.latest } };

    ghost invariant = { λ c. IsCounted (record { next = c.next; latest = c.latest }) };
}

impl StepClock {
    /// The last moment, in milliseconds.
    pub const LAST: u64 = 1 << 62;

    pub fn new() -> StepClock
        ensures { result ≡ record { next = 0; latest = 0 } }
    {
        StepClock { next: 0, latest: 0 }
    }
}

impl Clock for StepClock {
    ghost use Rattle.xp_base.specs.Clocks.{CountedTime, IsCounted, after_count};

    ghost latest = { λ c. c.latest };

    fn now(&mut self) -> u64
        ensures latest { self.new.latest ≡ max self.old.latest result }
        ensures value { result ≡ self.old.next }
        ensures state { self.new ≡ after_count self.old }
        ensures kept { IsCounted self.new }
    {
        let moment = self.next;
        self.latest = moment;
        self.next = (moment + 1).min(StepClock::LAST);
        moment
    }
}
