// Captures.
ghost use Rattle.std.specs.Prelude.{◌≡◌, ◌<◌, ◌^◌, OnOk, OnErr, length, slice_index_or};
ghost use Rattle.client_connection.specs.Clients.{plain};
ghost use Rattle.client_connection.specs.declared.source.Source.{Source};

use crate::answers::Captured;
use crate::client::{Client, source_place};
use crate::messages::draw_packet;
use crate::packet::{Draw, Packet};
use crate::points::Points;
use std::alloc::Global;
use std::mem;
use window_model::Win;
use xp_base::{Bytes, Coding, NoMemory, Rect};

/// The first number that no draw has.
const SEQUENCE_END: u64 = 1 << 62;

impl Client {
    ghost use Rattle.client_connection.specs.Clients.{captured};
    ghost use Rattle.client_connection.specs.Capturing.{CapturesWindow};

    /// Draws the whole window, where something of it is pending.
    pub fn capture(&mut self, alloc: Global, window: &Win) -> Captured
        ensures { CapturesWindow window.now (plain self.old) result (plain self.new) }
    {
        let Some(place) = source_place(&self.sources, window.wid) else {
            return Captured::Closed;
        };
        let source = &self.sources[place];
        if !source.mapped {
            return Captured::Unmapped;
        }
        if source.pending.is_empty() {
            return Captured::Clean;
        }
        if source.next_sequence >= SEQUENCE_END {
            return Captured::Spent;
        }
        match self.draw(alloc, window, place) {
            Ok(()) => Captured::Jobs(1),
            Err(NoMemory) => Captured::NoMemory,
        }
    }

    /// Queues a draw of the whole window, which repairs what was pending.
    fn draw(&mut self, alloc: Global, window: &Win, place: usize) -> Result<(), NoMemory>
        requires place { place < length self.old.sources }
        requires bounded { (s : Source) → s ≡ slice_index_or self.old.sources place s → s.next_sequence < 2 ^ 62 }
        ensures ok { OnOk result ((s : Source) → s ≡ slice_index_or self.old.sources place s → plain self.new ≡ captured window.now place s (plain self.old)) }
        ensures err { OnErr result (plain self.new ≡ plain self.old) }
    {
        let _area = window.area();
        let sequence = self.sources[place].next_sequence;
        let bytes = draw_packet(alloc, window, sequence)?;
        let none = Points::new(alloc, window.w, window.h, false)?;
        self.packets.reserve(1)?;
        let source = &mut self.sources[place];
        let relief = mem::replace(&mut source.pending, none);
        source.next_sequence = sequence + 1;
        let draw = Draw {
            wid: window.wid,
            sequence,
            rect: Rect {
                x: 0,
                y: 0,
                w: window.w,
                h: window.h,
            },
            coding: Coding::Exact,
            relief,
        };
        self.packets.push_reserved(Packet {
            bytes: Bytes::new(bytes),
            draw: Some(draw),
        });
        Ok(())
    }
}
