// What is asked of the connections.
ghost use Rattle.std.specs.Prelude.{◌≡◌, ◌<◌, ◌^◌, None, IfSome, length, slice_get, option_copied};
ghost use Rattle.connection_table.specs.Tables.{IsNextOpen, NoneFrom, ending};
ghost use Rattle.session_steps.specs.Drawing.{is_attached_at};

use crate::state::State;
use connection_ends::End;
use link_bay::Bay;
use xp_base::Conn;

impl<B: Bay + Drop> State<B> {
    /// The open connection of least number that is at least `from`.
    pub fn next_open(&self, from: u32) -> Option<Conn>
        requires { length self.now.slots < 2 ^ 32 }
        ensures some { IfSome result (λ c. IsNextOpen self.now.slots from c.0) }
        ensures none { result ≡ None → NoneFrom self.now.slots from }
    {
        match self.table.next_open(from as usize) {
            Some(number) => Some(Conn(number as u32)),
            None => None,
        }
    }

    /// How the connection ended, where it has.
    pub fn ended(&self, c: Conn) -> Option<&End>
        ensures { option_copied result ≡ ending (slice_get self.now.slots c.0) }
    {
        self.table.ended(c.0 as usize)
    }

    /// Whether the connection is open and its hello was accepted.
    pub fn is_attached(&self, c: Conn) -> bool
        ensures { result ≡ is_attached_at c.0 self.now }
    {
        match self.table.get(c.0 as usize) {
            Some(connection) => connection.caps().is_some(),
            None => false,
        }
    }
}
