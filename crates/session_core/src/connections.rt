// Which connections are open, and how one is dropped.
ghost use Rattle.std.specs.Prelude.{◌≡◌, ◌<◌, ◌↔◌, false, IsTrue, IsSome, None, length, slice_set};
ghost use Rattle.link_bay.specs.Connections.{AllStay};
ghost use Rattle.session_core.specs.State.{open_client};

use crate::state::Session;
use client_connection::{Client, End};
use link_bay::Bay;
use xp_base::Conn;

impl<B: Bay + Drop> Session<B> {
    ghost use Rattle.session_core.specs.State.{is_unended};
    ghost use Rattle.session_core.specs.Steps.{with_end};

    /// Ends the connection so: what is kept of it is dropped, and it is closed.
    pub(crate) fn drop_client(&mut self, c: Conn, end: End)
        requires within { c.0 < length self.old.clients }
        requires ended { is_unended end ≡ false }
        ensures session { self.new ≡ with_end c.0 end self.new.bay self.old }
        ensures connections { AllStay (B.connection self.old.bay) (B.connection self.new.bay) }
        ensures provider { B.provider self.new.bay ≡ B.provider self.old.bay }
    {
        end_client(&mut self.clients, &mut self.ends, &mut self.bay, c, end);
    }
}

/// Ends a connection: its slot is emptied, its end is written down, and the provider closes it.
pub(crate) fn end_client<B: Bay + Drop>(
    clients: &mut Vec<Option<Client>>,
    ends: &mut Vec<End>,
    bay: &mut B,
    c: Conn,
    end: End,
)
    requires within { c.0 < length clients.old.items }
    requires ends { c.0 < length ends.old.items }
    requires known { c.0 < (B.provider bay.old).count }
    ensures clients { clients.new.items ≡ slice_set clients.old.items c.0 None }
    ensures ends { ends.new.items ≡ slice_set ends.old.items c.0 end }
    ensures connections { AllStay (B.connection bay.old) (B.connection bay.new) }
    ensures provider { B.provider bay.new ≡ B.provider bay.old }
{
    let k = c.0 as usize;
    clients[k] = None;
    ends[k] = end;
    bay.close(c);
}

/// Whether the connection with this number is open.
pub(crate) fn is_open(clients: &[Option<Client>], k: usize) -> bool
    ensures open { IsTrue result ↔ IsSome (open_client clients.now k) }
    ensures within { IsTrue result → k < length clients.now }
{
    k < clients.len() && clients[k].is_some()
}
