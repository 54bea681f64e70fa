// The counts of one connection.
ghost use Rattle.std.specs.Prelude.{◌≡◌, ◌≤◌, length};
ghost use Rattle.xp_base.specs.Counts.{count_sum, Rose, RoseOnlyIf};

/// The counts that a provider keeps of each connection. Each stays at the greatest `u64` once there.
#[derive(Clone, Copy, Debug, PartialEq, Eq)]
pub struct Counters {
    pub faults: u64,
    pub dry: u64,
    pub waits: u64,
    pub ends: u64,
    pub drought: u64,
    pub worst: u64,
    pub unheard: u64,
}

impl Counters {
    ghost use Rattle.link_bay.specs.Counted.{after_write, no_counts};
    ghost use Rattle.link_bay.specs.Answers.{is_dry};

    pub fn new() -> Counters
        ensures { result ≡ no_counts }
    {
        Counters {
            faults: 0,
            dry: 0,
            waits: 0,
            ends: 0,
            drought: 0,
            worst: 0,
            unheard: 0,
        }
    }

    /// A read or a write failed.
    pub fn failed(&mut self)
        ensures counts { self.new ≡ record self.old { faults = count_sum self.old.faults 1 } }
        ensures rose { Rose self.old.faults self.new.faults }
    {
        self.faults = self.faults.saturating_add(1);
    }

    /// A read found nothing yet.
    pub fn waited(&mut self)
        ensures counts { self.new ≡ record self.old { waits = count_sum self.old.waits 1; unheard = 0 } }
        ensures rose { Rose self.old.waits self.new.waits }
    {
        self.waits = self.waits.saturating_add(1);
        self.unheard = 0;
    }

    /// A read met the end.
    pub fn ended(&mut self)
        ensures counts { self.new ≡ record self.old { ends = count_sum self.old.ends 1 } }
        ensures rose { Rose self.old.ends self.new.ends }
    {
        self.ends = self.ends.saturating_add(1);
    }

    /// A write took so many bytes of the piece.
    pub fn took(&mut self, piece: &[u8], taken: u32)
        ensures counts { self.new ≡ after_write piece.now taken self.old }
        ensures rose { RoseOnlyIf (is_dry piece.now taken) self.old.dry self.new.dry }
    {
        if taken > 0 {
            self.drought = 0;
        } else if !piece.is_empty() {
            self.dry = self.dry.saturating_add(1);
            self.drought = self.drought.saturating_add(1);
        }
        self.worst = self.worst.max(self.drought);
        self.unheard = self.unheard.saturating_add(u64::from(taken));
    }
}
