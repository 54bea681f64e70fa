// Clients in memory.
ghost use Rattle.std.specs.Prelude.{◌≡◌, ◌<◌, ◌^◌, length, IfSome, slice_get, OnOk, OnErr};
ghost use Rattle.client_replay.specs.Peers.{no_peers, peers_after};

use crate::peer::Peer;
use link_bay::{Accept, Bay, Gave, Order, Wrote};
use std::alloc::Global;
use std::marker::Model;
use xp_base::{Conn, NoMemory};

/// A provider of clients in memory, which orders add and steer. They are accepted in the order in which they joined.
/// What each call does beside the trait's rows is its clause `exact`.
#[derive(Drop)]
pub struct PeerBay {
    alloc: Global,
    peers: Vec<Peer>,
    accepted: u32,
    asked: Vec<Order>,
    lulls: u64,
}

impl Model for PeerBay {
    ghost use Rattle.client_replay.specs.Peers.{PeerProvider};
    ghost use Rattle.client_replay.specs.PeerKept.{ArePeers};

    ghost Value = { PeerProvider };

    ghost view = { λ b. record { peers = b.peers.items; accepted = b.accepted; asked = b.asked.items; lulls = b.lulls } };

    ghost invariant = { λ b. ArePeers b.peers.items b.accepted };
}

impl PeerBay {
    /// Nobody has joined.
    pub fn new(alloc: Global) -> PeerBay
        ensures { result ≡ no_peers }
    {
        PeerBay {
            alloc,
            peers: Vec::new(alloc),
            accepted: 0,
            asked: Vec::new(alloc),
            lulls: 0,
        }
    }

    /// The bytes that were sent on a connection that was handed out.
    pub fn sent_bytes(&self, c: Conn) -> &[u8]
        requires { c.0 < length self.now.peers }
        ensures { IfSome (slice_get self.now.peers c.0) (λ p. result.now ≡ p.sent) }
    {
        self.peers[c.0 as usize].sent_bytes()
    }
}

impl Bay for PeerBay {
    ghost use Rattle.std.specs.Prelude.{◌≡◌, ◌<◌, ◌≤◌, ◌+◌, ◌^◌, true};
    ghost use Rattle.link_bay.specs.Connections.{OthersStay, AllStay};
    ghost use Rattle.link_bay.specs.Answers.{AcceptGives, ReadGives, WriteGives, OrderGives};
    ghost use Rattle.client_replay.specs.Peers.{peers_connection, peers_provider};
    ghost use Rattle.client_replay.specs.PeerSteps.{AcceptOfPeers, ReadOfPeer, WriteOfPeer, OrderOfPeers, OnPeer};

    ghost tells = { true };

    ghost connection = { peers_connection };

    ghost provider = { peers_provider };

    fn accept(&mut self) -> Accept
        ensures exact { AcceptOfPeers self.old self.new result }
        ensures answer { AcceptGives true (peers_provider self.old) (peers_provider self.new) (peers_connection self.new) result }
        ensures others { OthersStay (peers_connection self.old) (peers_connection self.new) (peers_provider self.old).count }
        ensures numbered { (peers_provider self.new).count + (peers_provider self.new).room < 2 ^ 32 }
    {
        if self.accepted as usize == self.peers.len() {
            self.lulls = self.lulls.saturating_add(1);
            return Accept::Nobody;
        }
        let number = self.accepted;
        self.accepted += 1;
        Accept::Conn(Conn(number))
    }

    fn read(&mut self, c: Conn, into: &mut Vec<u8>, max: u32) -> Gave
        requires known { c.0 < (peers_provider self.old).count }
        requires some { 1 ≤ max }
        ensures exact { OnPeer self.old self.new c.0 (λ was is. ReadOfPeer was is into.old.items into.new.items max result) }
        ensures answer { ReadGives (peers_connection self.old c.0) (peers_connection self.new c.0) into.old.items into.new.items max result }
        ensures others { OthersStay (peers_connection self.old) (peers_connection self.new) c.0 }
        ensures provider { peers_provider self.new ≡ peers_provider self.old }
    {
        let peer = &mut self.peers[c.0 as usize];
        peer.read(into, max)
    }

    fn write(&mut self, c: Conn, piece: &[u8]) -> Wrote
        requires known { c.0 < (peers_provider self.old).count }
        ensures exact { OnPeer self.old self.new c.0 (λ was is. WriteOfPeer was is piece.now result) }
        ensures answer { WriteGives (peers_connection self.old c.0) (peers_connection self.new c.0) piece.now result }
        ensures others { OthersStay (peers_connection self.old) (peers_connection self.new) c.0 }
        ensures provider { peers_provider self.new ≡ peers_provider self.old }
    {
        let peer = &mut self.peers[c.0 as usize];
        peer.write(piece)
    }

    fn close(&mut self, c: Conn)
        requires known { c.0 < (peers_provider self.old).count }
        ensures exact { self.new ≡ self.old }
        ensures connections { AllStay (peers_connection self.old) (peers_connection self.new) }
        ensures provider { peers_provider self.new ≡ peers_provider self.old }
    {}

    fn order(&mut self, order: &Order) -> Result<(), NoMemory>
        ensures exact { OrderOfPeers self.old self.new order.now result }
        ensures answer { OrderGives (peers_provider self.old) (peers_provider self.new) order.now result }
        ensures connections { AllStay (peers_connection self.old) (peers_connection self.new) }
        ensures numbered { (peers_provider self.new).count + (peers_provider self.new).room < 2 ^ 32 }
    {
        let copy = order.copy(self.alloc)?;
        self.asked.reserve(1)?;
        follow(self.alloc, &mut self.peers, order)?;
        self.asked.push_reserved(copy);
        Ok(())
    }
}

/// The peers after an order: one more, or one that obeys.
fn follow(alloc: Global, peers: &mut Vec<Peer>, order: &Order) -> Result<(), NoMemory>
    requires few { length peers.old.items < 2 ^ 32 }
    ensures ok { OnOk result (peers.new.items ≡ peers_after peers.old.items order.now) }
    ensures err { OnErr result (peers.new.items ≡ peers.old.items) }
    ensures few { length peers.new.items < 2 ^ 32 }
{
    match order {
        Order::Join(kind, name) => {
            if peers.len() >= u32::MAX as usize {
                return Err(NoMemory);
            }
            let peer = Peer::new(alloc, *kind, name.as_slice())?;
            peers.push(peer)?;
            Ok(())
        }
        Order::Map(c, _)
        | Order::Unmap(c, _)
        | Order::Refresh(c, _)
        | Order::Leave(c)
        | Order::Say(c, _) => {
            let place = c.0 as usize;
            if place >= peers.len() {
                return Ok(());
            }
            let peer = &mut peers[place];
            peer.obey(order)
        }
    }
}
