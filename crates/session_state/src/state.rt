// What a session keeps.
ghost use Rattle.std.specs.Prelude.{◌≡◌};
ghost use Rattle.link_bay.specs.Answers.{OrderGives};
ghost use Rattle.link_bay.specs.Connections.{AllStay};
ghost use Rattle.connection_table.specs.Tables.{ends_of};
ghost use Rattle.session_steps.specs.Laws.{begun};
ghost use Rattle.session_steps.specs.Seen.{ticked};

use connection_ends::End;
use connection_table::Table;
use link_bay::{Bay, Order};
use open_connection::Connection;
use std::alloc::Global;
use std::marker::Model;
use window_model::Desk;
use xp_base::NoMemory;

/// The last moment that a clock of a session shows, in milliseconds.
const LAST_MOMENT: u64 = 1 << 62;

/// The desktop, the connections that see it, and their provider.
#[derive(Drop)]
pub struct State<B: Bay + Drop> {
    pub(crate) alloc: Global,
    pub(crate) desk: Desk,
    /// In milliseconds.
    pub(crate) clock: u64,
    pub(crate) table: Table<Connection, End>,
    /// How many packets of clients were ignored; it stays at the greatest `u64` once there.
    pub(crate) ignored: u64,
    pub(crate) greeted: bool,
    pub(crate) accept_failed: bool,
    pub(crate) bay: B,
}

impl<B: Bay + Drop> Model for State<B> {
    ghost use Rattle.session_steps.specs.Seen.{Seen};
    ghost use Rattle.session_state.specs.Views.{slots_in};

    ghost Value = { Seen B };

    ghost view = { λ s. record {
      desk = s.desk;
      clock = s.clock;
      slots = slots_in s.table.slots;
      ignored = s.ignored;
      greeted = s.greeted;
      accept_failed = s.accept_failed;
      bay = s.bay;
    } };
}

impl<B: Bay + Drop> State<B> {
    /// Before its first step.
    pub fn new(alloc: Global, bay: B) -> State<B>
        ensures { result ≡ begun bay }
    {
        State {
            alloc,
            desk: Desk::new(alloc),
            clock: 0,
            table: Table::new(alloc),
            ignored: 0,
            greeted: false,
            accept_failed: false,
            bay,
        }
    }

    /// Passes the order to the provider.
    pub fn order(&mut self, order: &Order) -> Result<(), NoMemory>
        ensures state { self.new ≡ record self.old { bay = self.new.bay } }
        ensures answer { OrderGives (B.provider self.old.bay) (B.provider self.new.bay) order.now result }
        ensures connections { AllStay (B.connection self.old.bay) (B.connection self.new.bay) }
    {
        self.bay.order(order)
    }

    /// The clock goes on to this moment, in milliseconds. It never goes back, and stays at its last moment.
    pub fn tick(&mut self, moment: u64)
        ensures { self.new ≡ ticked moment self.old }
    {
        self.clock = self.clock.max(moment.min(LAST_MOMENT));
    }

    /// The windows.
    pub fn desk(&self) -> &Desk
        ensures { result.now ≡ self.now.desk }
    {
        &self.desk
    }

    /// In milliseconds.
    pub fn clock(&self) -> u64
        ensures { result ≡ self.now.clock }
    {
        self.clock
    }

    /// How many packets of clients were ignored, or the greatest `u64` where they are more.
    pub fn ignored(&self) -> u64
        ensures { result ≡ self.now.ignored }
    {
        self.ignored
    }

    /// Whether a hello was accepted.
    pub fn greeted(&self) -> bool
        ensures { result ≡ self.now.greeted }
    {
        self.greeted
    }

    /// Whether an accept failed.
    pub fn accept_failed(&self) -> bool
        ensures { result ≡ self.now.accept_failed }
    {
        self.accept_failed
    }

    /// The windows, the end of each connection that has ended, in the order of their numbers, and the provider. It takes no memory.
    pub fn into_parts(self) -> (Desk, Vec<End>, B)
        ensures desk { result.0 ≡ self.desk }
        ensures ends { result.1.items ≡ ends_of self.slots }
        ensures bay { result.2 ≡ self.bay }
    {
        let State {
            alloc: _,
            desk,
            clock: _,
            table,
            ignored: _,
            greeted: _,
            accept_failed: _,
            bay,
        } = self;
        (desk, table.into_ends(), bay)
    }
}
