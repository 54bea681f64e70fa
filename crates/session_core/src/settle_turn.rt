// One turn of settling: somebody is accepted, or the open connection of least number is settled.
ghost use Rattle.std.specs.Prelude.{ℕ, ◌≡◌, ◌≢◌, ◌≤◌, ◌<◌, true, Some, None, IfSome, IsSome, length, ◌^◌};
ghost use Rattle.xp_base.specs.Counts.{Rose};
ghost use Rattle.session_core.specs.State.{open_client, open_count};
ghost use Rattle.session_core.specs.Ends.{rounds_end};

use crate::answers::Accepted;
use crate::connections::is_open;
use crate::settle::How;
use crate::state::Session;
use client_connection::{Client, End};
use link_bay::Bay;
use xp_base::Conn;

impl<B: Bay + Drop> Session<B> {
    ghost use Rattle.session_core.specs.State.{KeepsWindows};
    ghost use Rattle.session_core.specs.Ends.{KeepsEnds, AllEnded, NoMoreShort, EndsOne, work};
    ghost use Rattle.session_core.specs.Settling.{SettlesOn};

    /// Makes one turn, and answers how the settling ended, where it did.
    pub(crate) fn settle_turn(&mut self) -> Option<How>
        ensures windows { KeepsWindows self.old self.new }
        ensures ends { KeepsEnds self.old.ends self.new.ends }
        ensures ended { result ≡ Some How.Settled → AllEnded self.new.ends }
        ensures turn { SettlesOn B.provider B.connection B.tells self.old self.new }
        ensures short { result ≢ Some How.NoMemory → NoMoreShort self.old.ends self.new.ends }
        ensures less { result ≡ None → work (B.provider self.new.bay).room self.new.ends < work (B.provider self.old.bay).room self.old.ends }
        ensures fault { result ≡ Some How.BayFault → Rose (B.provider self.old.bay).faults (B.provider self.new.bay).faults }
        ensures settled { result ≡ Some How.Settled → Rose (B.provider self.old.bay).lulls (B.provider self.new.bay).lulls }
        ensures served { result ≡ Some How.Settled → B.tells ≡ true → (B.provider self.new.bay).room ≡ 0 }
        ensures asked { (B.provider self.new.bay).asked ≡ (B.provider self.old.bay).asked }
        ensures well { result ≢ Some How.BayFault → (B.provider self.new.bay).faults ≡ (B.provider self.old.bay).faults }
        ensures lulls { (B.provider self.old.bay).lulls ≤ (B.provider self.new.bay).lulls }
    {
        let _ = self.is_painted();
        match self.accept() {
            Accepted::Conn(_) => None,
            Accepted::Nobody => match self.settle_next() {
                Some(End::Short) => Some(How::NoMemory),
                Some(_) => None,
                None => Some(How::Settled),
            },
            Accepted::Full => match self.settle_next() {
                Some(End::Short) => Some(How::NoMemory),
                Some(_) => None,
                None => unreachable!(),
            },
            Accepted::Failed => Some(How::BayFault),
            Accepted::NoMemory => Some(How::NoMemory),
        }
    }

    /// Settles the open connection of least number, and answers its end; none where none is open.
    fn settle_next(&mut self) -> Option<End>
        ensures windows { KeepsWindows self.old self.new }
        ensures none { result ≡ None → open_count self.old.clients ≡ 0 }
        ensures ended { result ≡ None → AllEnded self.old.ends }
        ensures same { result ≡ None → self.new ≡ self.old }
        ensures ends { KeepsEnds self.old.ends self.new.ends }
        ensures some { IfSome result (λ e. EndsOne self.old.ends e self.new.ends) }
        ensures turn { SettlesOn B.provider B.connection B.tells self.old self.new }
        ensures provider { B.provider self.new.bay ≡ B.provider self.old.bay }
    {
        let c = first_open(&self.clients)?;
        Some(self.settle_one(c))
    }

    /// Brings the connection to the last windows, or ends it otherwise.
    fn settle_one(&mut self, c: Conn) -> End
        requires open { IsSome (open_client self.old.clients c.0) }
        requires least { (k : ℕ) → k < c.0 → open_client self.old.clients k ≡ None }
        ensures windows { KeepsWindows self.old self.new }
        ensures ended { EndsOne self.old.ends result self.new.ends }
        ensures turn { SettlesOn B.provider B.connection B.tells self.old self.new }
        ensures provider { B.provider self.new.bay ≡ B.provider self.old.bay }
    {
        let _ = &self.alloc;
        let rounds = self.make_rounds(c);
        let _ = self.is_painted();
        let end = end_of(rounds);
        if is_open(&self.clients, c.0 as usize) {
            self.drop_client(c, end);
        }
        end
    }
}

/// How the connection ends after its rounds.
fn end_of(rounds: Result<(), End>) -> End
    ensures { result ≡ rounds_end rounds }
{
    match rounds {
        Ok(()) => End::Settled,
        Err(end) => end,
    }
}

/// The open connection of least number.
fn first_open(clients: &[Option<Client>]) -> Option<Conn>
    requires { length clients.now < 2 ^ 32 }
    ensures none { result ≡ None → open_count clients.now ≡ 0 }
    ensures some { IfSome result (λ c. IsSome (open_client clients.now c.0)) }
    ensures least { IfSome result (λ c. (k : ℕ) → k < c.0 → open_client clients.now k ≡ None) }
{
    for place in 0..clients.len() {
        if clients[place].is_some() {
            return Some(Conn(place as u32));
        }
    }
    None
}
