// Connections come.
ghost use Rattle.session_steps.specs.Accepting.{Accepts};
ghost use Rattle.session_state.specs.Views.{known};

use crate::state::State;
use link_bay::{Accept, Bay};
use open_connection::Connection;
use session_steps::Accepted;

/// How many connections may be open at once.
const CAPACITY: usize = 8;

impl<B: Bay + Drop> State<B> {
    /// Accepts a connection, where fewer are open than may be. What may fail for memory is done before the provider is
    /// asked.
    pub fn accept(&mut self) -> Accepted
        ensures { Accepts (known B.tells B.provider B.connection) self.old result self.new }
    {
        if self.table.open_count() >= CAPACITY {
            return Accepted::Full;
        }
        if self.table.reserve().is_err() {
            return Accepted::NoMemory;
        }
        match self.bay.accept() {
            Accept::Conn(c) => {
                self.table.push(Connection::new(self.alloc));
                Accepted::Conn(c)
            }
            Accept::Nobody => Accepted::Nobody,
            Accept::Failed => {
                self.accept_failed = true;
                Accepted::Failed
            }
            Accept::NoMemory => Accepted::NoMemory,
        }
    }
}
