// Writes.
ghost use Rattle.std.specs.Prelude.{◌≡◌, ◌≤◌, ◌<◌, IfOk, IfErr, OnErr, IfSome, false};
ghost use Rattle.std.specs.Option.{option_map, is_some};
ghost use Rattle.link_bay.specs.Connections.{OthersStay};
ghost use Rattle.client_connection.specs.Clients.{plain};
ghost use Rattle.session_core.specs.Slots.{WritesSlot, FailsSlot};

use crate::connections::is_open;
use crate::state::Session;
use client_connection::{Broken, Client, End, Sent};
use link_bay::Bay;
use xp_base::Conn;

impl<B: Bay + Drop> Session<B> {
    ghost use Rattle.session_core.specs.State.{KeepsWindows, ends_with, is_unended};
    ghost use Rattle.session_core.specs.Ends.{waiting_at, SendsLess};
    ghost use Rattle.session_core.specs.Steps.{Sends, send_ends};
    ghost use Rattle.session_core.specs.Causes.{DropMeans};

    /// Writes at most `max` bytes of what is left of the first packet that waits.
    pub fn send(&mut self, c: Conn, max: u32) -> Sent
        requires { 1 ≤ max }
        ensures answer { Sends B.connection c.0 max self.old result self.new }
        ensures windows { KeepsWindows self.old self.new }
        ensures ends { self.new.ends ≡ ends_with (send_ends result) c.0 self.old.ends }
        ensures ended { IfSome (send_ends result) (λ e. is_unended e ≡ false) }
        ensures means { IfSome (send_ends result) (λ e. DropMeans self.new.lines (B.connection self.old.bay c.0) e (B.connection self.new.bay c.0)) }
        ensures waiting { SendsLess result (waiting_at self.old.clients c.0) (waiting_at self.new.clients c.0) }
        ensures others { OthersStay (B.connection self.old.bay) (B.connection self.new.bay) c.0 }
        ensures provider { B.provider self.new.bay ≡ B.provider self.old.bay }
    {
        let k = c.0 as usize;
        if !is_open(&self.clients, k) {
            return Sent::Closed;
        }
        let slot = &mut self.clients[k];
        match send_slot(slot, &mut self.bay, c, max) {
            Ok(answer) => answer,
            Err(Broken) => {
                self.drop_client(c, End::Unbuilt);
                Sent::Ended(End::Unbuilt)
            }
        }
    }
}

fn send_slot<B: Bay + Drop>(
    slot: &mut Option<Client>,
    bay: &mut B,
    c: Conn,
    max: u32,
) -> Result<Sent, Broken>
    requires some { 1 ≤ max }
    requires known { c.0 < (B.provider bay.old).count }
    ensures kept { is_some slot.new ≡ is_some slot.old }
    ensures ok { IfOk result (λ answer. WritesSlot max (B.connection bay.old c.0) (B.connection bay.new c.0) (option_map plain slot.old) answer (option_map plain slot.new)) }
    ensures failed { IfErr result (λ broken. FailsSlot max (B.connection bay.old c.0) (B.connection bay.new c.0) (option_map plain slot.old)) }
    ensures same { OnErr result (option_map plain slot.new ≡ option_map plain slot.old) }
    ensures others { OthersStay (B.connection bay.old) (B.connection bay.new) c.0 }
    ensures provider { B.provider bay.new ≡ B.provider bay.old }
{
    match slot {
        Some(client) => client.send(bay, c, max),
        None => Ok(Sent::Closed),
    }
}
