// A connection is closed with an end that no step gives it.
ghost use Rattle.session_steps.specs.Settling.{EndsOpen};
ghost use Rattle.session_state.specs.Views.{known};
ghost use Rattle.session_state.specs.Ready.{IsReady};

use crate::state::State;
use crate::take_over::{close, discard};
use connection_ends::End;
use link_bay::Bay;
use xp_base::Conn;

impl<B: Bay + Drop> State<B> {
    /// Ends the connection so and closes it, where it is open. The caller answers for the cause.
    pub fn end(&mut self, c: Conn, end: End)
        requires ready { IsReady (known B.tells B.provider B.connection) self.old }
        ensures { EndsOpen (known B.tells B.provider B.connection) c end self.old self.new }
    {
        if let Some(connection) = self.table.take(c.0 as usize) {
            discard(connection);
            close(&mut self.table, &mut self.bay, c, end);
        }
    }
}
