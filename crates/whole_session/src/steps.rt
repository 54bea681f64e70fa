// The steps that leave the script as it is.
ghost use Rattle.std.specs.Prelude.{◌≡◌, ◌≤◌};
ghost use Rattle.link_bay.specs.Answers.{OrderGives};
ghost use Rattle.link_bay.specs.Connections.{AllStay};
ghost use Rattle.session_steps.specs.Accepting.{Accepts};
ghost use Rattle.session_steps.specs.Reading.{Receives};
ghost use Rattle.session_steps.specs.Sending.{Sends};
ghost use Rattle.session_steps.specs.Seen.{ticked};
ghost use Rattle.session_state.specs.Views.{known};
ghost use Rattle.whole_session.specs.Session.{SameScript};

use crate::session::Session;
use link_bay::{Bay, Order};
use session_steps::{
    Accepted, Received, Sent, a_read_keeps_a_session, a_session_begins_steady,
    a_write_keeps_a_session, an_accept_keeps_a_session,
};
use xp_base::{Conn, NoMemory};

impl<B: Bay + Drop> Session<B> {
    /// Passes the order to the provider. It is no step: all else stays.
    pub fn order(&mut self, order: &Order) -> Result<(), NoMemory>
        ensures state { self.new.seen ≡ record self.old.seen { bay = self.new.seen.bay } }
        ensures script { SameScript self.old self.new }
        ensures answer { OrderGives (B.provider self.old.seen.bay) (B.provider self.new.seen.bay) order.now result }
        ensures connections { AllStay (B.connection self.old.seen.bay) (B.connection self.new.seen.bay) }
    {
        a_session_begins_steady::<B>();
        self.state.order(order)
    }

    /// Accepts a connection, where fewer than eight are open.
    pub fn accept(&mut self) -> Accepted
        ensures state { Accepts (known B.tells B.provider B.connection) self.old.seen result self.new.seen }
        ensures script { SameScript self.old self.new }
    {
        an_accept_keeps_a_session::<B>();
        self.state.accept()
    }

    /// Reads once from the connection, at most 4,096 bytes, and handles each packet that is then whole.
    pub fn receive(&mut self, c: Conn) -> Received
        ensures state { Receives (known B.tells B.provider B.connection) c self.old.seen result self.new.seen }
        ensures script { SameScript self.old self.new }
    {
        a_read_keeps_a_session::<B>();
        self.state.receive(c)
    }

    /// Writes once to the connection: at most `max` bytes, of what is left of the first packet that waits.
    pub fn send(&mut self, c: Conn, max: u32) -> Sent
        requires some { 1 ≤ max }
        ensures state { Sends (known B.tells B.provider B.connection) c max self.old.seen result self.new.seen }
        ensures script { SameScript self.old self.new }
    {
        a_write_keeps_a_session::<B>();
        self.state.send(c, max)
    }

    /// The clock goes on to this moment, in milliseconds. It never goes back, and stays at its last moment.
    pub fn tick(&mut self, moment: u64)
        ensures state { self.new.seen ≡ ticked moment self.old.seen }
        ensures script { SameScript self.old self.new }
    {
        a_session_begins_steady::<B>();
        self.state.tick(moment);
    }
}
