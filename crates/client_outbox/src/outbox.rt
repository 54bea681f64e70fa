// The packets that wait to be written to one client.
ghost use Rattle.std.specs.Prelude.{◌≡◌, ◌+◌, ◌<◌, ◌≤◌, ◌^◌, min, true, [], length, take, OnOk, OnErr, IfErr, IsOk};
ghost use Rattle.xp_base.specs.Counts.{greatest};
ghost use Rattle.link_bay.specs.Connections.{OthersStay};
ghost use Rattle.client_outbox.specs.Outgoing.{nothing_waits, with_packet, unwritten, IsBegun, AllFit};
ghost use Rattle.client_outbox.specs.Sending.{rest_of, piece_of, advanced, SendsOn};
ghost use Rattle.client_outbox.specs.Reliefs.{is_busy, relieve};

use crate::out::Out;
use crate::packet::Packet;
use link_bay::{Bay, Wrote};
use rect_regions::Points;
use std::alloc::{AllocFailed, Global};
use std::collections::VecDeque;
use std::marker::Model;
use xp_base::{Conn, NoMemory, Wid};

/// Packets in the order in which they were put, the first of them written in part perhaps.
#[derive(Drop)]
pub struct Outbox<R: Points> {
    pub(crate) packets: VecDeque<Packet<R>>,
    /// How many bytes of the first packet were taken.
    taken: usize,
    /// How many bytes of all packets were not.
    weight: u128,
}

impl<R: Points> Model for Outbox<R> {
    ghost use Rattle.std.specs.Prelude.{◌-◌};
    ghost use Rattle.std.specs.VecDeque.{deque_len, deque_capacity};
    ghost use Rattle.client_outbox.specs.Outgoing.{Queue, IsOutbox};

    ghost Value = { Queue R };

    ghost view = { λ o. record {
      waiting = record { packets = o.packets.items; taken = o.taken };
      room = deque_capacity o.packets - deque_len o.packets;
    } };

    ghost invariant = { λ o. IsOutbox o.packets.items o.taken o.weight };
}

impl<R: Points> Outbox<R> {
    pub fn new(alloc: Global) -> Outbox<R>
        ensures { result.waiting ≡ nothing_waits }
    {
        Outbox {
            packets: VecDeque::new(alloc),
            taken: 0,
            weight: 0,
        }
    }

    /// After it so many packets can be put in without memory.
    pub fn reserve(&mut self, n: u32) -> Result<(), NoMemory>
        ensures same { self.new.waiting ≡ self.old.waiting }
        ensures ok { OnOk result (n ≤ self.new.room) }
        ensures room { self.old.room ≤ self.new.room }
    {
        self.packets.reserve(n as usize)?;
        Ok(())
    }

    /// Puts a packet behind all others. `Err` is want of memory, and hands the packet back.
    pub fn put(&mut self, p: Packet<R>) -> Result<(), Packet<R>>
        ensures ok { OnOk result (self.new.waiting ≡ with_packet self.old.waiting p) }
        ensures same { OnErr result (self.new.waiting ≡ self.old.waiting) }
        ensures back { IfErr result (λ back. back ≡ p) }
        ensures reserved { 0 < self.old.room → IsOk result }
        ensures room { self.old.room ≤ self.new.room + 1 }
    {
        let size = p.bytes.len();
        match self.packets.push_back(p) {
            Ok(()) => {
                self.weight += size as u128;
                Ok(())
            }
            Err(AllocFailed { value }) => Err(value),
        }
    }

    /// Writes once: at most `max` bytes, of what is left of the first packet.
    pub fn send<B: Bay>(&mut self, bay: &mut B, c: Conn, max: u32) -> Out
        requires known { c.0 < (B.provider bay.old).count }
        requires some { 1 ≤ max }
        ensures answer { SendsOn B.connection bay.old bay.new c.0 self.old self.new max result }
        ensures others { OthersStay (B.connection bay.old) (B.connection bay.new) c.0 }
        ensures provider { B.provider bay.new ≡ B.provider bay.old }
        ensures room { self.old.room ≤ self.new.room }
    {
        let piece = self.piece(max as usize);
        if piece.is_empty() {
            return Out::Idle;
        }
        match bay.write(c, piece) {
            Wrote::Took(0) => Out::Again,
            Wrote::Took(n) => {
                self.advance(n as usize);
                Out::Took(n)
            }
            Wrote::Failed => Out::Failed,
            Wrote::NoMemory => Out::NoMemory,
        }
    }

    /// Whether a waiting draw relieves this point of a window.
    pub fn owes(&self, wid: Wid, x: u32, y: u32) -> bool
        ensures { result ≡ relieve R.has wid self.now.waiting.packets x y }
    {
        self.packets
            .iter()
            .any(|packet| packet.draws_in(wid) && packet.relief.has(x, y))
    }

    /// Whether a draw in the window waits.
    pub fn busy(&self, wid: Wid) -> bool
        ensures { result ≡ is_busy wid self.now.waiting.packets }
    {
        self.packets.iter().any(|packet| packet.draws_in(wid))
    }

    /// How many bytes wait to be taken, or the greatest `u64` where they are more.
    pub fn weight(&self) -> u64
        ensures count { result ≡ min (length (unwritten self.now.waiting)) greatest }
        ensures begun { IsBegun self.now.waiting.packets self.now.waiting.taken }
        ensures packets { AllFit self.now.waiting.packets }
    {
        self.weight.min(u64::MAX as u128) as u64
    }

    // What one write offers; nothing where nothing waits.
    fn piece(&self, max: usize) -> &[u8]
        requires some { 1 ≤ max }
        ensures piece { result.now ≡ piece_of max self.now.waiting }
        ensures nothing { length result.now ≡ 0 → self.now.waiting.packets ≡ [] }
    {
        match self.packets.front() {
            None => &[],
            Some(front) => {
                let rest = &front.bytes[self.taken..];
                &rest[..rest.len().min(max)]
            }
        }
    }

    // So many bytes of the first packet were taken.
    fn advance(&mut self, n: usize)
        requires { n ≤ length (rest_of self.old.waiting.packets self.old.waiting.taken) }
        ensures waiting { self.new.waiting ≡ advanced self.old.waiting n }
        ensures room { self.old.room ≤ self.new.room }
    {
        let Some(front) = self.packets.front() else {
            return;
        };
        let size = front.bytes.len();
        self.weight -= n as u128;
        if self.taken + n < size {
            self.taken += n;
        } else {
            let _ = self.packets.pop_front();
            self.taken = 0;
        }
    }
}
