// Writes.
ghost use Rattle.std.specs.Prelude.{◌≡◌, ◌≤◌, ◌<◌, ◌+◌, length, IfOk, IfErr, OnErr};
ghost use Rattle.link_bay.specs.Connections.{OthersStay};
ghost use Rattle.client_connection.specs.Clients.{plain};

use crate::answers::{Broken, Sent};
use crate::client::Client;
use link_bay::{Bay, Wrote};
use xp_base::Conn;

impl Client {
    ghost use Rattle.client_connection.specs.Clients.{taken_more, front_size};
    ghost use Rattle.client_connection.specs.Sending.{Writes, Fails};

    /// Writes at most `max` bytes of what is left of the first packet that waits, to connection `c`.
    pub fn send<B: Bay + Drop>(&mut self, bay: &mut B, c: Conn, max: u32) -> Result<Sent, Broken>
        requires some { 1 ≤ max }
        requires known { c.0 < (B.provider bay.old).count }
        ensures ok { IfOk result (λ answer. Writes max (B.connection bay.old c.0) (B.connection bay.new c.0) (plain self.old) answer (plain self.new)) }
        ensures failed { IfErr result (λ broken. Fails max (B.connection bay.old c.0) (B.connection bay.new c.0) (plain self.old)) }
        ensures same { OnErr result (plain self.new ≡ plain self.old) }
        ensures others { OthersStay (B.connection bay.old) (B.connection bay.new) c.0 }
        ensures provider { B.provider bay.new ≡ B.provider bay.old }
    {
        let [front, ..] = self.packets.as_slice() else {
            return Ok(Sent::Idle);
        };
        let rest = &front.bytes.as_slice()[self.taken..];
        let count = rest.len().min(max as usize);
        match bay.write(c, &rest[..count]) {
            Wrote::Took(0) => Ok(Sent::Again),
            Wrote::Took(n) => {
                self.take(n as usize);
                Ok(Sent::Took(n))
            }
            Wrote::Failed => Err(Broken),
            Wrote::NoMemory => Ok(Sent::NoMemory),
        }
    }

    /// So many more bytes of the first packet were taken.
    fn take(&mut self, n: usize)
        requires some { 0 < length self.old.packets }
        requires within { self.old.taken + n ≤ front_size self.old.packets }
        ensures { plain self.new ≡ taken_more n (plain self.old) }
    {
        let size = self.packets[0].bytes.as_slice().len();
        if self.taken + n < size {
            self.taken += n;
        } else {
            self.packets.remove(0);
            self.taken = 0;
        }
    }
}
