// One client in memory.
ghost use Rattle.std.specs.Prelude.{◌≡◌, ◌≤◌, IfOk, OnOk, OnErr};
ghost use Rattle.link_bay.specs.Answers.{ReadGives, WriteGives};
ghost use Rattle.client_replay.specs.Peers.{peer_connection, fresh_peer, obeyed, is_stalling, is_scripted};
ghost use Rattle.client_replay.specs.PeerSteps.{ReadOfPeer, WriteOfPeer};

use crate::hello::first_words;
use crate::listening::{attend, map_from, refresh_bytes, unmap_bytes};
use crate::replay::Replay;
use link_bay::{Counters, Gave, Kind, Order, Write, Wrote};
use std::alloc::Global;
use std::marker::Model;
use xp_base::NoMemory;

/// The most bytes of a packet or a chunk to a client.
const CLIENT_LIMIT: u32 = 67_108_864;

/// A client in memory: all that it has said, and what has happened on its connection.
#[derive(Drop)]
pub(crate) struct Peer {
    alloc: Global,
    kind: Kind,
    /// All that it has said, of which the first `place` bytes were handed out.
    said: Vec<u8>,
    place: usize,
    left: bool,
    sent: Vec<u8>,
    /// What each write took.
    taken: Vec<Write>,
    counts: Counters,
    replay: Replay,
    /// Memory was wanted while it listened: it takes nothing more.
    lost: bool,
}

impl Model for Peer {
    ghost use Rattle.std.specs.Prelude.{take};
    ghost use Rattle.link_bay.specs.Writes.{heard_of};
    ghost use Rattle.client_replay.specs.Peers.{PeerRecord};
    ghost use Rattle.client_replay.specs.PeerKept.{IsPeer};

    ghost Value = { PeerRecord };

    ghost view = { λ p. record {
      kind = p.kind;
      said = p.said.items;
      left = p.left;
      sent = p.sent.items;
      given = take p.place p.said.items;
      heard = heard_of p.taken.items;
      counts = p.counts;
    } };

    ghost invariant = { λ p. IsPeer p.place p.said.items p.sent.items p.left p.lost p.replay };
}

impl Peer {
    pub(crate) fn new(alloc: Global, kind: Kind, name: &[u8]) -> Result<Peer, NoMemory>
        ensures { IfOk result (λ peer. peer ≡ fresh_peer kind name.now) }
    {
        let said = first_words(alloc, kind, name)?;
        Ok(Peer {
            alloc,
            kind,
            said,
            place: 0,
            left: false,
            sent: Vec::new(alloc),
            taken: Vec::new(alloc),
            counts: Counters::new(),
            replay: Replay::new(alloc, CLIENT_LIMIT),
            lost: false,
        })
    }

    /// The bytes that it took.
    pub(crate) fn sent_bytes(&self) -> &[u8]
        ensures { result.now ≡ self.now.sent }
    {
        self.sent.as_slice()
    }

    pub(crate) fn read(&mut self, into: &mut Vec<u8>, max: u32) -> Gave
        requires { 1 ≤ max }
        ensures exact { ReadOfPeer self.old self.new into.old.items into.new.items max result }
        ensures answer { ReadGives (peer_connection self.old) (peer_connection self.new) into.old.items into.new.items max result }
    {
        let rest = &self.said[self.place..];
        if rest.is_empty() {
            if self.left {
                self.counts.ended();
                return Gave::End;
            }
            self.counts.waited();
            return Gave::Again;
        }
        let count = rest.len().min(max as usize);
        if into.extend_from_slice(&rest[..count]).is_err() {
            return Gave::NoMemory;
        }
        self.place += count;
        Gave::Bytes(count as u32)
    }

    pub(crate) fn write(&mut self, piece: &[u8]) -> Wrote
        ensures exact { WriteOfPeer self.old self.new piece.now result }
        ensures answer { WriteGives (peer_connection self.old) (peer_connection self.new) piece.now result }
    {
        if is_stalling(self.kind, self.counts.dry) && !piece.is_empty() {
            self.counts.took(piece, 0);
            return Wrote::Took(0);
        }
        let count = piece.len().min(u32::MAX as usize);
        let front = &piece[..count];
        let before = self.sent.len();
        if self.taken.reserve(1).is_err() || self.sent.extend_from_slice(front).is_err() {
            return Wrote::NoMemory;
        }
        let silent = is_scripted(self.kind);
        if attend(
            self.left,
            &mut self.lost,
            &mut self.replay,
            &mut self.said,
            front,
            silent,
        )
        .is_err()
        {
            self.sent.truncate(before);
            return Wrote::NoMemory;
        }
        self.taken.push_reserved(Write {
            taken: count,
            given: self.place,
        });
        self.counts.took(piece, count as u32);
        Wrote::Took(count as u32)
    }

    /// Obeys an order for it.
    pub(crate) fn obey(&mut self, order: &Order) -> Result<(), NoMemory>
        ensures ok { OnOk result (self.new ≡ obeyed self.old order.now) }
        ensures err { OnErr result (self.new ≡ self.old) }
        ensures connection { peer_connection self.new ≡ peer_connection self.old }
    {
        if self.left {
            return Ok(());
        }
        let words = match order {
            Order::Map(_c, wid) => {
                if self.lost {
                    return Err(NoMemory);
                }
                map_from(self.alloc, self.replay.picture(), *wid)?
            }
            Order::Unmap(_c, wid) => unmap_bytes(self.alloc, *wid)?,
            Order::Refresh(_c, wid) => refresh_bytes(self.alloc, *wid)?,
            Order::Say(_c, words) => words.as_slice().to_vec(self.alloc)?,
            Order::Leave(_c) => {
                self.left = true;
                return Ok(());
            }
            Order::Join(_kind, _name) => return Ok(()),
        };
        self.said.extend_from_slice(words.as_slice())?;
        Ok(())
    }
}

/// Whether it answers nothing.
fn is_scripted(kind: Kind) -> bool
    ensures { result ≡ is_scripted kind }
{
    match kind {
        Kind::Hex => true,
        Kind::Exact | Kind::Lossy | Kind::Dry(_) => false,
    }
}

/// Whether it takes nothing of a piece that is not empty, after so many of them of which it took nothing.
fn is_stalling(kind: Kind, dry: u64) -> bool
    ensures { result ≡ is_stalling kind dry }
{
    match kind {
        Kind::Dry(most) => dry < u64::from(most),
        Kind::Exact | Kind::Lossy | Kind::Hex => false,
    }
}
