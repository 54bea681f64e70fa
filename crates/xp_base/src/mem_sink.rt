// Output to memory.
ghost use Rattle.std.specs.Prelude.{◌≡◌, ◌≢◌, ◌↔◌, [], Contains};

use crate::sink::{Put, Sink};
use std::alloc::Global;
use std::marker::Model;

/// The bytes that were taken, and the numbers of the calls that fail, counted from 1. Such a call
/// takes nothing.
#[derive(Drop)]
pub struct MemSink {
    bytes: Vec<u8>,
    failing: Vec<u64>,
    calls: u64,
    faults: u64,
}

impl Model for MemSink {
    ghost use Rattle.xp_base.specs.Memory.{MemoryOutput};

    ghost Value = { MemoryOutput };

    ghost view = { λ s. record { taken = s.bytes.items; failing = s.failing.items; calls = s.calls; faults = s.faults } };
}

impl MemSink {
    pub fn new(alloc: Global, failing: Vec<u64>) -> MemSink
        ensures { result ≡ record { taken = []; failing = failing.items; calls = 0; faults = 0 } }
    {
        MemSink {
            bytes: Vec::new(alloc),
            failing,
            calls: 0,
            faults: 0,
        }
    }

    /// What it took.
    pub fn bytes(&self) -> &[u8]
        ensures { result.now ≡ self.now.taken }
    {
        self.bytes.as_slice()
    }
}

impl Sink for MemSink {
    ghost use Rattle.xp_base.specs.Answers.{PutGives};
    ghost use Rattle.xp_base.specs.Memory.{output_record, after_put};

    ghost sink = { output_record };

    fn put(&mut self, piece: &[u8]) -> Put
        ensures answer { PutGives (output_record self.old) (output_record self.new) piece.now result }

        // A call fails exactly where its number is in the list, and only a call that is done takes anything.
        ensures state { self.new ≡ after_put self.old piece.now result }
        ensures fails { (result ≡ Put.Failed) ↔ Contains self.old.failing self.new.calls }
        ensures short { result ≡ Put.NoMemory → piece.now ≢ [] }
    {
        self.calls = self.calls.saturating_add(1);
        if self.failing.contains(&self.calls) {
            self.faults = self.faults.saturating_add(1);
            return Put::Failed;
        }
        match self.bytes.extend_from_slice(piece) {
            Ok(()) => Put::Done,
            Err(_) => Put::NoMemory,
        }
    }
}
