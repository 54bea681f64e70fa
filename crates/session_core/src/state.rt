// The session.
ghost use Rattle.std.specs.Prelude.{◌≡◌, ◌≤◌, ◌<◌, ◌↔◌, [], IsTrue, IfOk, IfErr, length};
ghost use Rattle.link_bay.specs.Provider.{IsFresh};
ghost use Rattle.link_bay.specs.Answers.{OrderGives};
ghost use Rattle.link_bay.specs.Connections.{AllStay};

use client_connection::{Client, End};
use first_script::{Paints, desk_at_start};
use link_bay::{Bay, Order};
use std::alloc::Global;
use std::marker::Model;
use window_model::Desk;
use xp_base::NoMemory;

/// One session of windows, which a script's paint lines change, and the connections that see them.
#[derive(Drop)]
pub struct Session<B: Bay + Drop> {
    pub(crate) alloc: Global,
    pub(crate) paints: Paints,
    pub(crate) place: usize,
    pub(crate) desk: Desk,
    pub(crate) bay: B,
    /// Place k is connection k, while it is open.
    pub(crate) clients: Vec<Option<Client>>,
    /// Place k is the end of connection k, and `Unended` while it is open.
    pub(crate) ends: Vec<End>,
}

impl<B: Bay + Drop> Model for Session<B> {
    ghost use Rattle.std.specs.Prelude.{◌≡◌};
    ghost use Rattle.session_core.specs.Slots.{plain_clients};
    ghost use Rattle.session_core.specs.State.{Seen};
    ghost use Rattle.session_core.specs.Steady.{IsSteady};

    ghost Value = { Seen B };

    ghost view = { λ s. record {
      lines = s.paints;
      place = s.place;
      desk = s.desk;
      clients = plain_clients s.clients.items;
      ends = s.ends.items;
      bay = s.bay;
    } };

    ghost invariant = { λ s. IsSteady B.tells (B.connection s.bay) s.paints s.place s.desk s.clients.items s.ends.items (B.provider s.bay).count };
}

impl<B: Bay + Drop> Session<B> {
    ghost use Rattle.session_core.specs.State.{Seen, IsSession};
    ghost use Rattle.session_core.specs.Slots.{AreTold, AreKnown};
    ghost use Rattle.window_model.specs.Desktop.{IsDesktop};
    ghost use Rattle.first_script.specs.Validity.{ArePaints};

    /// A session before its first paint line. `Err` is want of memory, and hands the provider back.
    pub fn new(alloc: Global, paints: Paints, bay: B) -> Result<Session<B>, B>
        requires fresh { IsFresh (B.provider bay) }
        ensures ok { IfOk result (λ s. s ≡ record { lines = paints; place = 0; desk = []; clients = []; ends = []; bay = bay }) }
        ensures err { IfErr result (λ back. back ≡ bay) }
    {
        desk_at_start();
        Ok(Session {
            alloc,
            paints,
            place: 0,
            desk: Desk::new(alloc),
            bay,
            clients: Vec::new(alloc),
            ends: Vec::new(alloc),
        })
    }

    /// Passes the order to the provider.
    pub fn order(&mut self, order: &Order) -> Result<(), NoMemory>
        ensures session { self.new ≡ record self.old { bay = self.new.bay } }
        ensures answer { OrderGives (B.provider self.old.bay) (B.provider self.new.bay) order.now result }
        ensures connections { AllStay (B.connection self.old.bay) (B.connection self.new.bay) }
    {
        self.bay.order(order)
    }

    /// Whether no paint line is left; and what every session keeps, as a fact for proofs.
    pub fn is_painted(&self) -> bool
        ensures value { IsTrue result ↔ (length self.now.lines ≤ self.now.place) }
        ensures kept { IsSession self.now.lines self.now.place self.now.desk self.now.clients self.now.ends (B.provider self.now.bay).count }
        ensures told { AreTold (B.connection self.now.bay) self.now.desk self.now.clients }
        ensures known { AreKnown B.tells (B.connection self.now.bay) self.now.lines self.now.desk self.now.clients }
        ensures desktop { IsDesktop self.now.desk }
        ensures lines { ArePaints self.now.lines }
    {
        let _count = self.desk.len();
        self.place >= self.paints.len()
    }
}
