// Input.
ghost use Rattle.std.specs.Prelude.{◌≤◌};
ghost use Rattle.xp_base.specs.Streams.{SourceRecord};

/// What a read of the input gave.
#[derive(Clone, Copy, Debug, PartialEq, Eq)]
pub enum Get {
    /// So many bytes were appended, at least 1.
    Got(u32),
    /// The input has ended.
    End,
    /// Reading failed: the source's count of faults rose.
    Failed,
    NoMemory,
}

/// Where a script or a packet stream is read from.
pub trait Source {
    ghost use Rattle.xp_base.specs.Answers.{GetGives};

    /// The bytes that are left, where they are told, and the count of faults.
    ghost source: { Self → SourceRecord };

    /// Appends at most `max` bytes. Every answer but `Got` appends nothing.
    fn get(&mut self, into: &mut Vec<u8>, max: u32) -> Get
        requires { 1 ≤ max }
        ensures answer { GetGives (source self.old) (source self.new)
            into.old.items into.new.items max result };
}
