// Reads.
ghost use Rattle.std.specs.Prelude.{◌≡◌, ◌<◌, ◌≤◌, Some, slice_get, length};
ghost use Rattle.xp_base.specs.Clocks.{last_moment};
ghost use Rattle.link_bay.specs.Connections.{AllStay, OthersStay};
ghost use Rattle.connection_table.specs.Tables.{Away, Ended};
ghost use Rattle.open_connection.specs.Connection.{connection_in};
ghost use Rattle.session_steps.specs.Reading.{Receives, HearsOf, Finishes, Closes, greeted_by, with_ignored, puts};
ghost use Rattle.session_state.specs.Views.{known};
ghost use Rattle.session_state.specs.Ready.{IsReady, answer_of};

use crate::state::State;
use crate::take_over::{close, take_over};
use client_talk::Ending;
use connection_ends::End;
use hello_caps::goodbye;
use link_bay::{Bay, Gave};
use open_connection::{Connection, Heard};
use session_steps::Received;
use xp_base::Conn;

/// How many bytes one read asks for at most.
const READ_LIMIT: u32 = 4096;

impl<B: Bay + Drop> State<B> {
    /// Reads once from the connection, and handles each packet that is then whole.
    pub fn receive(&mut self, c: Conn) -> Received
        requires ready { IsReady (known B.tells B.provider B.connection) self.old }
        ensures { Receives (known B.tells B.provider B.connection) c self.old result self.new }
    {
        let Some(connection) = self.table.take(c.0 as usize) else {
            return Received::Closed;
        };
        let mut bytes = Vec::new(self.alloc);
        match self.bay.read(c, &mut bytes, READ_LIMIT) {
            Gave::Bytes(count) => self.hear(c, connection, bytes.as_slice(), count),
            Gave::Again => {
                self.table.put_back(c.0 as usize, connection);
                Received::Again
            }
            Gave::End => self.end_reading(c, End::Left),
            Gave::Failed => self.end_reading(c, End::LinkFault),
            Gave::NoMemory => self.end_reading(c, End::Short),
        }
    }

    /// Handles the packets that become whole with these bytes of the connection that was taken out.
    fn hear(&mut self, c: Conn, connection: Connection, bytes: &[u8], count: u32) -> Received
        requires taken { slice_get self.old.slots c.0 ≡ Some Away }
        requires counted { length self.old.slots ≡ (B.provider self.old.bay).count }
        requires early { self.old.clock ≤ last_moment }
        ensures comes { HearsOf c (connection_in connection) bytes.now count self.old (B.connection self.old.bay c.0) (B.connection self.new.bay c.0) result self.new }
        ensures others { OthersStay (B.connection self.old.bay) (B.connection self.new.bay) c.0 }
        ensures provider { B.provider self.new.bay ≡ B.provider self.old.bay }
    {
        let mut connection = connection;
        let was_attached = connection.caps().is_some();
        let heard = connection.hear(self.alloc, c, bytes, &self.desk, self.clock);
        self.greet(c, was_attached, &connection);
        self.finish_hearing(c, connection, heard, count)
    }

    /// Where its client was not attached before a read, and is now, earlier ones with its uuid are taken over.
    fn greet(&mut self, c: Conn, was_attached: bool, connection: &Connection)
        requires within { c.0 ≤ length self.old.slots }
        requires counted { length self.old.slots ≡ (B.provider self.old.bay).count }
        ensures state { self.new ≡ record (greeted_by c was_attached (connection_in connection.now).client self.old) { bay = self.new.bay } }
        ensures connections { AllStay (B.connection self.old.bay) (B.connection self.new.bay) }
        ensures provider { B.provider self.new.bay ≡ B.provider self.old.bay }
    {
        if let Some(caps) = connection.caps() {
            self.greeted = true;
            if !was_attached {
                take_over(&mut self.table, &mut self.bay, c, caps.uuid.as_slice());
            }
        }
    }

    /// Puts the connection back, or ends it, by what was heard.
    fn finish_hearing(
        &mut self,
        c: Conn,
        connection: Connection,
        heard: Heard,
        count: u32,
    ) -> Received
        requires taken { slice_get self.old.slots c.0 ≡ Some Away }
        requires known { c.0 < (B.provider self.old.bay).count }
        ensures gives { Finishes c (connection_in connection) count self.old (B.connection self.old.bay c.0) (B.connection self.new.bay c.0) heard result self.new }
        ensures others { OthersStay (B.connection self.old.bay) (B.connection self.new.bay) c.0 }
        ensures provider { B.provider self.new.bay ≡ B.provider self.old.bay }
    {
        match heard {
            Heard::GoesOn(ignored) => {
                self.count_ignored(ignored);
                self.table.put_back(c.0 as usize, connection);
                Received::Took(count)
            }
            Heard::Ends(ending, ignored) => {
                self.count_ignored(ignored);
                say_goodbye(&mut self.bay, c, ending);
                self.end_reading(c, End::of_talk(ending))
            }
            Heard::NoMemory(ignored) => {
                self.count_ignored(ignored);
                self.end_reading(c, End::Short)
            }
        }
    }

    fn count_ignored(&mut self, ignored: u64)
        ensures { self.new ≡ with_ignored ignored self.old }
    {
        self.ignored = self.ignored.saturating_add(ignored);
    }

    /// Ends the connection that was taken out, and answers that.
    fn end_reading(&mut self, c: Conn, end: End) -> Received
        requires taken { slice_get self.old.slots c.0 ≡ Some Away }
        requires known { c.0 < (B.provider self.old.bay).count }
        ensures answer { result ≡ answer_of end }
        ensures state { self.new ≡ puts c (Ended end) self.old self.new.bay }
        ensures connections { AllStay (B.connection self.old.bay) (B.connection self.new.bay) }
        ensures provider { B.provider self.new.bay ≡ B.provider self.old.bay }
    {
        close(&mut self.table, &mut self.bay, c, end);
        match end {
            End::Short => Received::NoMemory,
            _ => Received::Ended(end),
        }
    }
}

/// Offers its goodbye to a connection that is refused, in one write; whatever that answers, the connection ends.
fn say_goodbye<B: Bay>(bay: &mut B, c: Conn, ending: Ending)
    requires known { c.0 < (B.provider bay.old).count }
    ensures closes { Closes ending (B.connection bay.old c.0) (B.connection bay.new c.0) }
    ensures others { OthersStay (B.connection bay.old) (B.connection bay.new) c.0 }
    ensures provider { B.provider bay.new ≡ B.provider bay.old }
{
    if let Ending::Refused(fault) = ending {
        let _wrote = bay.write(c, goodbye(&fault));
    }
}
