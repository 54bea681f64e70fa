// A provider of one client that is slow to take anything, for tests.
ghost use Rattle.std.specs.Prelude.{◌≡◌, ◌≤◌, false, None, if◌then◌else◌, length};
ghost use Rattle.xpra_server.specs.DryClient.{dry_connection};

use link_bay::{Accept, Bay, Counters, EXACT_HELLO, Gave, Order, Wrote};
use xp_base::{Conn, NoMemory};

/// One client, which says an exact client's hello. Its first writes of some bytes, so many, take nothing, and
/// each later one takes all.
#[derive(Drop)]
pub struct DryBay {
    accepted: bool,
    said: bool,
    /// How many more writes take nothing.
    left: u32,
    lulls: u64,
    pub counts: Counters,
}

impl DryBay {
    pub fn new(dry: u32) -> DryBay
        ensures accepted { result.accepted ≡ false }
        ensures left { result.left ≡ dry }
        ensures lulls { result.lulls ≡ 0 }
    {
        DryBay {
            accepted: false,
            said: false,
            left: dry,
            lulls: 0,
            counts: Counters::new(),
        }
    }

    /// How many bytes the next write takes of this piece.
    fn taken_of(&mut self, piece: &[u8]) -> u32
        ensures within { result ≤ length piece.now }
        ensures counts { self.new.counts ≡ self.old.counts }
        ensures accepted { self.new.accepted ≡ self.old.accepted }
        ensures lulls { self.new.lulls ≡ self.old.lulls }
    {
        if self.left > 0 && !piece.is_empty() {
            self.left -= 1;
            return 0;
        }
        piece.len().min(u32::MAX as usize) as u32
    }
}

impl Bay for DryBay {
    ghost tells = { false };

    ghost connection = { λ b c. dry_connection b.accepted b.counts c };

    ghost provider = { λ b. record {
      count = if b.accepted then 1 else 0;
      asked = None;
      room = if b.accepted then 0 else 1;
      faults = 0;
      lulls = b.lulls;
    } };

    fn accept(&mut self) -> Accept {
        if self.accepted {
            self.lulls = self.lulls.saturating_add(1);
            return Accept::Nobody;
        }
        self.accepted = true;
        self.counts = Counters::new();
        Accept::Conn(Conn(0))
    }

    fn read(&mut self, c: Conn, into: &mut Vec<u8>, max: u32) -> Gave {
        if self.said || (max as usize) < EXACT_HELLO.len() {
            self.counts.waited();
            return Gave::Again;
        }
        if into.extend_from_slice(EXACT_HELLO).is_err() {
            return Gave::NoMemory;
        }
        self.said = true;
        Gave::Bytes(EXACT_HELLO.len() as u32)
    }

    fn write(&mut self, c: Conn, piece: &[u8]) -> Wrote {
        let taken = self.taken_of(piece);
        self.counts.took(piece, taken);
        Wrote::Took(taken)
    }

    fn close(&mut self, c: Conn) {}

    fn order(&mut self, order: &Order) -> Result<(), NoMemory> {
        Ok(())
    }
}
