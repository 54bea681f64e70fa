// Time.
ghost use Rattle.std.specs.Prelude.{ℕ, ◌≡◌, max};

/// Where the time comes from, in milliseconds.
pub trait Clock {
    /// The greatest number that it has given; 0 at first.
    ghost latest: { Self → ℕ };

    /// The time. It may be less than one given before: whoever must not go back takes the greatest.
    fn now(&mut self) -> u64
        ensures latest { latest self.new ≡ max (latest self.old) result };
}
