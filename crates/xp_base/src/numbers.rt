// The numbers of windows, connections and jobs.
ghost use Rattle.std.specs.Prelude.{◌≡◌, ◌≤◌, ◌<◌, ◌↔◌, ◌⊎◌, pos, ◌<ℤ◌, IsNone, IfSome};

use std::marker::Model;

/// A window's number, 1 to 65,535.
#[derive(Clone, Copy, Debug, PartialEq, Eq, PartialOrd, Ord, Hash)]
pub struct Wid(u16);

impl Model for Wid {
    ghost use Rattle.std.specs.Prelude.{ℕ, ◌≤◌, ◌^◌, ◌<◌};

    ghost Value = { ℕ };

    ghost view = { λ w. w.0 };

    ghost invariant = { λ w. (1 ≤ w.0) × (w.0 < 2 ^ 16) };

    ghost inverse = { λ n. record { 0 = n } };
}

impl Wid {
    pub fn new(n: i64) -> Option<Wid>
        ensures none { IsNone result ↔ ((n <ℤ pos 1) ⊎ (pos 65535 <ℤ n)) }
        ensures some { IfSome result (λ wid. n ≡ pos wid) }
    {
        if n < 1 || n > 65_535 {
            return None;
        }
        Some(Wid(n as u16))
    }

    pub fn get(self) -> u16
        ensures value { result ≡ self }
        ensures some { 1 ≤ result }
    {
        self.0
    }
}

/// A connection's number: 0, 1, 2 and so on in the order of their acceptance.
#[derive(Clone, Copy, Debug, PartialEq, Eq, PartialOrd, Ord, Hash)]
pub struct Conn(pub u32);

/// An encoding job's number, from 1 on.
#[derive(Clone, Copy, Debug, PartialEq, Eq, PartialOrd, Ord, Hash)]
pub struct JobId(pub u64);
