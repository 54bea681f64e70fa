// Writes.
ghost use Rattle.std.specs.Prelude.{◌≡◌, ◌≤◌, ◌<◌, Some, slice_get};
ghost use Rattle.link_bay.specs.Connections.{AllStay};
ghost use Rattle.connection_table.specs.Tables.{Away};
ghost use Rattle.open_connection.specs.Connection.{connection_in};
ghost use Rattle.session_steps.specs.Sending.{Sends, sent_of, slot_after};
ghost use Rattle.session_steps.specs.Reading.{puts};
ghost use Rattle.session_steps.specs.Drawing.{is_clear_at};
ghost use Rattle.session_state.specs.Views.{known};
ghost use Rattle.session_state.specs.Ready.{IsReady};

use crate::state::State;
use crate::take_over::{close, discard};
use client_outbox::Out;
use connection_ends::End;
use link_bay::Bay;
use open_connection::Connection;
use session_steps::Sent;
use xp_base::Conn;

impl<B: Bay + Drop> State<B> {
    /// Writes once: at most `max` bytes, of what is left of the first packet that waits.
    pub fn send(&mut self, c: Conn, max: u32) -> Sent
        requires some { 1 ≤ max }
        requires ready { IsReady (known B.tells B.provider B.connection) self.old }
        ensures { Sends (known B.tells B.provider B.connection) c max self.old result self.new }
    {
        let Some(mut connection) = self.table.take(c.0 as usize) else {
            return Sent::Closed;
        };
        let out = connection.send(&mut self.bay, c, max);
        self.keep_or_close(c, connection, out);
        answer_to(out)
    }

    /// Whether the connection is open, its client is attached, and nothing is left to be drawn of any of its windows. Draws
    /// may wait still.
    pub fn is_clear(&self, c: Conn) -> bool
        ensures { result ≡ is_clear_at c.0 self.now }
    {
        match self.table.get(c.0 as usize) {
            Some(connection) => connection.is_clear(),
            None => false,
        }
    }

    /// Puts the connection that was taken out back, or ends it where its write failed.
    fn keep_or_close(&mut self, c: Conn, connection: Connection, out: Out)
        requires taken { slice_get self.old.slots c.0 ≡ Some Away }
        requires known { c.0 < (B.provider self.old.bay).count }
        ensures state { self.new ≡ puts c (slot_after (connection_in connection) out) self.old self.new.bay }
        ensures connections { AllStay (B.connection self.old.bay) (B.connection self.new.bay) }
        ensures provider { B.provider self.new.bay ≡ B.provider self.old.bay }
    {
        match out {
            Out::Failed => {
                discard(connection);
                close(&mut self.table, &mut self.bay, c, End::LinkFault);
            }
            _ => self.table.put_back(c.0 as usize, connection),
        }
    }
}

/// How a send answers.
fn answer_to(out: Out) -> Sent
    ensures { result ≡ sent_of out }
{
    match out {
        Out::Took(count) => Sent::Took(count),
        Out::Idle => Sent::Idle,
        Out::Again => Sent::Again,
        Out::Failed => Sent::Ended(End::LinkFault),
        Out::NoMemory => Sent::NoMemory,
    }
}
