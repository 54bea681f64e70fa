// One connection that a tape plays.
ghost use Rattle.std.specs.Prelude.{◌≡◌, ◌≤◌};
ghost use Rattle.link_bay.specs.Tapes.{tape_of, fresh_tape, tape_connection};
ghost use Rattle.link_bay.specs.TapeSteps.{ReadOfTape, WriteOfTape};
ghost use Rattle.link_bay.specs.Answers.{ReadGives, WriteGives};

use crate::bay::{Gave, Wrote};
use crate::counters::Counters;
use crate::inbound::Inbound;
use crate::writes::Write;
use std::marker::Model;

/// A tape, and what has happened on its connection.
#[derive(Drop)]
pub struct Played {
    tape: Inbound,
    /// How many of the tape's bytes were handed out.
    place: usize,
    reads: u64,
    writes: u64,
    sent: Vec<u8>,
    /// What each write took.
    taken: Vec<Write>,
    counts: Counters,
}

impl Model for Played {
    ghost use Rattle.std.specs.Prelude.{◌≤◌, length};
    ghost use Rattle.link_bay.specs.Tapes.{PlayedTape, tape_of};
    ghost use Rattle.link_bay.specs.Writes.{heard_of};

    ghost Value = { PlayedTape };

    ghost view = { λ p. record {
      tape = tape_of p.tape;
      place = p.place;
      reads = p.reads;
      writes = p.writes;
      sent = p.sent.items;
      heard = heard_of p.taken.items;
      counts = p.counts;
    } };

    ghost invariant = { λ p. (p.place ≤ length p.tape.bytes.items) × (1 ≤ p.tape.piece) };
}

impl Played {
    pub fn new(tape: Inbound) -> Played
        requires { 1 ≤ tape.piece }
        ensures { result ≡ fresh_tape (tape_of tape) }
    {
        let alloc = *tape.bytes.allocator();
        Played {
            tape,
            place: 0,
            reads: 0,
            writes: 0,
            sent: Vec::new(alloc),
            taken: Vec::new(alloc),
            counts: Counters::new(),
        }
    }

    /// The bytes that were taken.
    pub fn sent_bytes(&self) -> &[u8]
        ensures { result.now ≡ self.now.sent }
    {
        self.sent.as_slice()
    }

    pub fn read(&mut self, into: &mut Vec<u8>, max: u32) -> Gave
        requires { 1 ≤ max }
        ensures exact { ReadOfTape self.old self.new into.old.items into.new.items max result }
        ensures answer { ReadGives (tape_connection self.old) (tape_connection self.new) into.old.items into.new.items max result }
    {
        self.reads = self.reads.saturating_add(1);
        if self.tape.failing_reads.contains(&self.reads) {
            self.counts.failed();
            return Gave::Failed;
        }
        let rest = &self.tape.bytes[self.place..];
        if rest.is_empty() {
            if self.tape.ends {
                self.counts.ended();
                return Gave::End;
            }
            self.counts.waited();
            return Gave::Again;
        }
        let count = rest.len().min(max as usize).min(self.tape.piece as usize);
        if into.extend_from_slice(&rest[..count]).is_err() {
            return Gave::NoMemory;
        }
        self.place += count;
        Gave::Bytes(count as u32)
    }

    pub fn write(&mut self, piece: &[u8]) -> Wrote
        ensures exact { WriteOfTape self.old self.new piece.now result }
        ensures answer { WriteGives (tape_connection self.old) (tape_connection self.new) piece.now result }
    {
        self.writes = self.writes.saturating_add(1);
        if self.tape.failing_writes.contains(&self.writes) {
            self.counts.failed();
            return Wrote::Failed;
        }
        let count = piece.len().min(self.tape.quota as usize);
        if self.taken.reserve(1).is_err() || self.sent.extend_from_slice(&piece[..count]).is_err() {
            return Wrote::NoMemory;
        }
        self.taken.push_reserved(Write {
            taken: count,
            given: self.place,
        });
        self.counts.took(piece, count as u32);
        Wrote::Took(count as u32)
    }
}
