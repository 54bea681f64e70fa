// A session is given up.
ghost use Rattle.std.specs.Prelude.{◌≡◌, length};
ghost use Rattle.link_bay.specs.Connections.{AllStay};

use crate::state::Session;
use client_connection::{Client, End};
use link_bay::Bay;
use xp_base::Conn;

/// What an abandoned session leaves: the end of each connection by its number, and the provider.
#[derive(Drop)]
pub struct Abandoned<B: Drop> {
    pub ends: Vec<End>,
    pub bay: B,
}

impl<B: Bay + Drop> Session<B> {
    /// Closes each connection that is open; its end is `Unended`. Takes no memory.
    pub fn abandon(self) -> Abandoned<B>
        ensures ends { result.ends.items ≡ self.ends }
        ensures provider { B.provider result.bay ≡ B.provider self.bay }
        ensures connections { AllStay (B.connection self.bay) (B.connection result.bay) }
        ensures counted { length result.ends.items ≡ (B.provider result.bay).count }
    {
        let Session {
            alloc: _,
            paints: _,
            place: _,
            desk: _,
            mut bay,
            clients,
            ends,
        } = self;
        close_all(&mut bay, &clients);
        Abandoned { ends, bay }
    }
}

/// Closes each connection that is open.
fn close_all<B: Bay + Drop>(bay: &mut B, clients: &[Option<Client>])
    requires { length clients.now ≡ (B.provider bay.old).count }
    ensures provider { B.provider bay.new ≡ B.provider bay.old }
    ensures connections { AllStay (B.connection bay.old) (B.connection bay.new) }
{
    for k in 0..clients.len() {
        if clients[k].is_some() {
            if let Ok(number) = u32::try_from(k) {
                bay.close(Conn(number));
            }
        }
    }
}
