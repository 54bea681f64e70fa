// Writes to a client.
ghost use Rattle.std.specs.Prelude.{◌≡◌, ◌≤◌, ◌<◌};
ghost use Rattle.link_bay.specs.Connections.{OthersStay};
ghost use Rattle.attached_client.specs.Sending.{ClientSends};

use crate::client::Attached;
use client_outbox::Out;
use link_bay::Bay;
use xp_base::Conn;

impl Attached {
    /// Writes once: at most `max` bytes, of what is left of the first packet that waits.
    pub fn send<B: Bay>(&mut self, bay: &mut B, c: Conn, max: u32) -> Out
        requires known { c.0 < (B.provider bay.old).count }
        requires some { 1 ≤ max }
        ensures answer { ClientSends (B.connection bay.old c.0) (B.connection bay.new c.0) self.old.client max result self.new.client }
        ensures others { OthersStay (B.connection bay.old) (B.connection bay.new) c.0 }
        ensures provider { B.provider bay.new ≡ B.provider bay.old }
    {
        self.out.send(bay, c, max)
    }
}
