// Input from memory.
ghost use Rattle.std.specs.Prelude.{◌≡◌, ◌≢◌, ◌≤◌, ◌↔◌, [], min, length, Contains};

use crate::source::{Get, Source};
use std::marker::Model;

/// Fixed bytes, and the numbers of the calls that fail, counted from 1. Such a call gives nothing.
#[derive(Drop)]
pub struct MemSource {
    bytes: Vec<u8>,
    place: usize,
    failing: Vec<u64>,
    calls: u64,
    faults: u64,
}

impl Model for MemSource {
    ghost use Rattle.std.specs.Prelude.{◌≤◌, drop, vec_len};
    ghost use Rattle.xp_base.specs.Memory.{MemoryInput};

    ghost Value = { MemoryInput };

    ghost view = { λ s. record { left = drop s.place s.bytes.items; failing = s.failing.items; calls = s.calls; faults = s.faults } };

    ghost invariant = { λ s. s.place ≤ vec_len s.bytes };
}

impl MemSource {
    pub fn new(bytes: Vec<u8>, failing: Vec<u64>) -> MemSource
        ensures { result ≡ record { left = bytes.items; failing = failing.items; calls = 0; faults = 0 } }
    {
        MemSource {
            bytes,
            place: 0,
            failing,
            calls: 0,
            faults: 0,
        }
    }
}

impl Source for MemSource {
    ghost use Rattle.xp_base.specs.Answers.{GetGives, GetsSome};
    ghost use Rattle.xp_base.specs.Memory.{input_record, after_get};

    ghost source = { input_record };

    fn get(&mut self, into: &mut Vec<u8>, max: u32) -> Get
        requires { 1 ≤ max }
        ensures answer { GetGives (input_record self.old) (input_record self.new)
            into.old.items into.new.items max result }

        // A call fails exactly where its number is in the list, and gives all that is asked for and left.
        ensures state { self.new ≡ after_get self.old result }
        ensures fails { (result ≡ Get.Failed) ↔ Contains self.old.failing self.new.calls }
        ensures short { result ≡ Get.NoMemory → self.old.left ≢ [] }
        ensures amount { GetsSome (min max (length self.old.left)) result }
    {
        self.calls = self.calls.saturating_add(1);
        if self.failing.contains(&self.calls) {
            self.faults = self.faults.saturating_add(1);
            return Get::Failed;
        }
        let rest = &self.bytes[self.place..];
        let count = rest.len().min(max as usize);
        if count == 0 {
            return Get::End;
        }
        if into.extend_from_slice(&rest[..count]).is_err() {
            return Get::NoMemory;
        }
        self.place += count;
        Get::Got(count as u32)
    }
}
