// Time from memory.
ghost use Rattle.std.specs.Prelude.{◌≡◌, max};

use crate::clock::Clock;
use std::marker::Model;

/// A list of moments, in milliseconds: each reading gives the next, and once they are used up the last of them again, or
/// 0 where the list was empty.
#[derive(Drop)]
pub struct MemClock {
    moments: Vec<u64>,
    place: usize,
    last: u64,
    latest: u64,
}

impl Model for MemClock {
    ghost use Rattle.std.specs.Prelude.{◌≤◌, drop, vec_len};
    ghost use Rattle.xp_base.specs.Clocks.{MemoryTime};

    ghost Value = { MemoryTime };

    ghost view = { λ c. record { left = drop c.place c.moments.items; last = c.last; latest = c.latest } };

    ghost invariant = { λ c. c.place ≤ vec_len c.moments };
}

impl MemClock {
    pub fn new(moments: Vec<u64>) -> MemClock
        ensures { result ≡ record { left = moments.items; last = 0; latest = 0 } }
    {
        MemClock {
            moments,
            place: 0,
            last: 0,
            latest: 0,
        }
    }
}

impl Clock for MemClock {
    ghost use Rattle.xp_base.specs.Clocks.{MemoryTime, next_moment, after_moment};

    ghost latest = { λ c. c.latest };

    fn now(&mut self) -> u64
        ensures latest { self.new.latest ≡ max self.old.latest result }
        ensures value { result ≡ next_moment self.old }
        ensures state { self.new ≡ after_moment self.old }
    {
        if self.place < self.moments.len() {
            self.last = self.moments[self.place];
            self.place += 1;
        }
        self.latest = self.latest.max(self.last);
        self.last
    }
}
