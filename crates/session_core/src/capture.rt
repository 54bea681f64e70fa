// Captures.
ghost use Rattle.std.specs.Prelude.{◌≡◌};
ghost use Rattle.std.specs.Option.{option_map, is_some};
ghost use Rattle.client_connection.specs.Clients.{plain};
ghost use Rattle.session_core.specs.Slots.{CapturesSlot};

use crate::connections::is_open;
use crate::state::Session;
use client_connection::{Captured, Client};
use link_bay::Bay;
use std::alloc::Global;
use window_model::Win;
use xp_base::{Conn, Wid};

impl<B: Bay + Drop> Session<B> {
    ghost use Rattle.session_core.specs.State.{KeepsWindows};
    ghost use Rattle.session_core.specs.Steps.{Captures};

    /// Draws the whole window for the client, where something of it is pending.
    pub fn capture(&mut self, c: Conn, wid: Wid) -> Captured
        ensures answer { Captures c.0 wid self.old result self.new }
        ensures windows { KeepsWindows self.old self.new }
        ensures ends { self.new.ends ≡ self.old.ends }
        ensures bay { self.new.bay ≡ self.old.bay }
    {
        let k = c.0 as usize;
        if !is_open(&self.clients, k) {
            return Captured::Closed;
        }
        let _count = self.desk.len();
        let Some(window) = self.desk.find(wid) else {
            return Captured::Closed;
        };
        let slot = &mut self.clients[k];
        capture_slot(slot, self.alloc, window)
    }
}

fn capture_slot(slot: &mut Option<Client>, alloc: Global, window: &Win) -> Captured
    ensures kept { is_some slot.new ≡ is_some slot.old }
    ensures answer { CapturesSlot window.now (option_map plain slot.old) result (option_map plain slot.new) }
{
    match slot {
        Some(client) => client.capture(alloc, window),
        None => Captured::Closed,
    }
}
