// An outbox and the connection that it writes to.
use client_outbox::{Draw, Out, Outbox, Packet};
use link_bay::{Accept, Bay, Inbound, TapeBay};
use rect_regions::{BitRegion, Points};
use std::alloc::Global;
use std::fmt::Write;
use std::marker::Model;
use std::test::Fail;
use xp_base::{Coding, Conn, Rect, Wid};

/// More writes than any test makes.
const WRITES: u32 = 1_000_000;

/// An outbox, and a connection that was handed out and takes at most so many bytes a write.
#[derive(Drop)]
pub struct Line {
    outbox: Outbox<BitRegion>,
    bay: TapeBay,
}

impl Model for Line {
    ghost use Rattle.std.specs.Prelude.{◌<◌, length};
    ghost use Rattle.link_bay.specs.Tapes.{TapeProvider};

    ghost Value = { TapeProvider };

    ghost view = { λ l. l.bay };

    ghost invariant = { λ l. 0 < length l.bay.played };
}

impl Line {
    /// The writes with the numbers in `failing` fail, counted from 1.
    pub fn new(alloc: Global, quota: u32, failing: &[u64]) -> Result<Line, Fail> {
        let mut tapes = Vec::new(alloc);
        tapes.push(Inbound {
            bytes: Vec::new(alloc),
            ends: false,
            piece: 1,
            quota,
            failing_reads: Vec::new(alloc),
            failing_writes: failing.to_vec(alloc)?,
        })?;
        let mut bay = TapeBay::new(tapes, Vec::new(alloc));
        match bay.accept() {
            Accept::Conn(_) => Ok(Line {
                outbox: Outbox::new(alloc),
                bay,
            }),
            _ => Err(Fail::from("a connection")),
        }
    }

    /// Puts a packet that is no draw.
    pub fn put(&mut self, alloc: Global, bytes: &[u8]) -> Result<(), Fail> {
        let bytes = bytes.to_vec(alloc)?;
        if bytes.is_empty() || self.outbox.put(Packet::of_bytes(alloc, bytes)).is_err() {
            return Err(Fail::from("a packet"));
        }
        Ok(())
    }

    /// Puts a draw of these bytes, which relieves 4 by 4 points of a window.
    pub fn put_draw(&mut self, alloc: Global, wid: Wid, bytes: &[u8]) -> Result<(), Fail> {
        let rect = Rect::new(0, 0, 4, 4).ok_or("a rectangle")?;
        let draw = Draw {
            sequence: 1,
            rect,
            coding: Coding::Exact,
        };
        let mut relief = BitRegion::new(alloc);
        relief.union_rect(rect)?;
        let bytes = bytes.to_vec(alloc)?;
        if bytes.is_empty()
            || self
                .outbox
                .put(Packet::of_draw(wid, draw, bytes, relief))
                .is_err()
        {
            return Err(Fail::from("a draw"));
        }
        Ok(())
    }

    /// Offers at most so many bytes, and at least one.
    pub fn send(&mut self, max: u32) -> Out {
        self.outbox.send(&mut self.bay, Conn(0), max.max(1))
    }

    /// Sends until nothing is taken: how many writes took bytes.
    pub fn send_all(&mut self, max: u32) -> u32 {
        for writes in 0..WRITES {
            if !took(self.send(max)) {
                return writes;
            }
        }
        WRITES
    }

    /// Writes what so many sends come to, one after another.
    pub fn sends(&mut self, out: &mut String, max: u32, times: u32) -> Result<(), Fail> {
        for _ in 0..times {
            let answer = self.send(max);
            write!(out, "{answer:?} ")?;
        }
        Ok(())
    }

    pub fn sent(&self) -> &[u8] {
        self.bay.sent_bytes(Conn(0))
    }

    pub fn weight(&self) -> u64 {
        self.outbox.weight()
    }

    /// Whether a draw in the window waits, and one of the waiting ones relieves the point.
    pub fn waits(&self, wid: Wid, x: u32, y: u32) -> &'static str {
        match (self.outbox.busy(wid), self.outbox.owes(wid, x, y)) {
            (true, true) => "owed ",
            (true, false) => "busy ",
            (false, false) => "none ",
            (false, true) => "wrong ",
        }
    }

    pub fn reserve(&mut self, n: u32) -> Result<(), Fail> {
        self.outbox.reserve(n)?;
        Ok(())
    }

    pub fn forget(&mut self, wid: Wid) {
        self.outbox.forget(wid);
    }

    /// Clips the reliefs of a window, and writes how many points each of its draws then relieves.
    pub fn clip(&mut self, out: &mut String, wid: Wid, w: u32, h: u32) -> Result<(), Fail> {
        let size = Rect::new(0, 0, w, h).ok_or("a size")?;
        let clipped = self.outbox.clipped(wid, size.w, size.h)?;
        for relief in clipped.reliefs.iter() {
            let count = relief.count();
            write!(out, "{count} ")?;
        }
        self.outbox.put_clipped(wid, clipped);
        Ok(())
    }
}

fn took(answer: Out) -> bool {
    match answer {
        Out::Took(_) => true,
        _ => false,
    }
}

/// Writes bytes as characters.
pub fn put_text(out: &mut String, bytes: &[u8]) -> Result<(), Fail> {
    for byte in bytes {
        out.push(char::from(*byte))?;
    }
    Ok(())
}
