// What is owed.
ghost use Rattle.std.specs.Prelude.{◌≡◌, true, Some, List, ℕ};
ghost use Rattle.session_core.specs.Slots.{slot_owes as owes_slot};

use crate::connections::is_open;
use crate::state::Session;
use client_connection::Client;
use link_bay::Bay;
use xp_base::{Conn, Wid};

impl<B: Bay + Drop> Session<B> {
    ghost use Rattle.session_core.specs.Slots.{owes, IsAttached};
    ghost use Rattle.client_connection.specs.Shown.{Differs, shows};
    ghost use Rattle.client_connection.specs.Changes.{on_desk};

    /// Whether the client is attached, has the window, the point is in it, and it is owed: it is to be
    /// captured, or a draw that waits repairs it.
    /// Where the provider tells the bytes sent, each pixel in which an attached client's picture, read from
    /// these bytes, differs from the desktop is owed.
    pub fn owes(&self, c: Conn, wid: Wid, x: u32, y: u32) -> bool
        ensures value { result ≡ owes self.now c.0 wid x y }
        ensures means { result ≡ true → IsAttached self.now.clients c.0 × (on_desk self.now.desk wid x y ≡ true) }
        ensures differs { (sent : List ℕ) → (B.connection self.now.bay c.0).sent ≡ Some sent → IsAttached self.now.clients c.0 → Differs self.now.desk (shows sent) wid x y → result ≡ true }
    {
        let _count = self.desk.len();
        self.is_owed(c, wid, x, y)
    }

    fn is_owed(&self, c: Conn, wid: Wid, x: u32, y: u32) -> bool
        ensures { result ≡ owes self.now c.0 wid x y }
    {
        let k = c.0 as usize;
        is_open(&self.clients, k) && slot_owes(&self.clients[k], wid, x, y)
    }
}

fn slot_owes(slot: &Option<Client>, wid: Wid, x: u32, y: u32) -> bool
    ensures { result ≡ owes_slot wid x y slot.now }
{
    match slot {
        Some(client) => client.owes(wid, x, y),
        None => false,
    }
}
