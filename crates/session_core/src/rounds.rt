// What settles one connection: rounds of reading, capturing and writing.
ghost use Rattle.std.specs.Prelude.{◌≡◌, ◌≤◌, ◌↔◌, IsSome, IsTrue, IfOk, IfErr, OnOk, Ok, false};
ghost use Rattle.link_bay.specs.Connections.{OthersStay};
ghost use Rattle.session_core.specs.Slots.{IsAttached as IsAttachedIn};

use crate::answers::Received;
use crate::state::Session;
use client_connection::{Captured, Client, End, Sent};
use link_bay::Bay;
use xp_base::Conn;

/// How many bytes a connection may give while it is settled; no more are of a form that is built.
const FLOOD: u32 = 4_194_304;

/// How many writes in a row may take nothing.
const DRY_LIMIT: u32 = 1000;

/// How many bytes one write offers at most.
const SEND_LIMIT: u32 = 65_536;

impl<B: Bay + Drop> Session<B> {
    ghost use Rattle.session_core.specs.State.{KeepsWindows, open_client};
    ghost use Rattle.session_core.specs.Ends.{LeavesEnds, waiting_at, WritesLess};
    ghost use Rattle.session_core.specs.Slots.{IsAttached};
    ghost use Rattle.session_core.specs.Calm.{AreClean, IsCalm, WaitsForNothing, sources_in};
    ghost use Rattle.session_core.specs.Causes.{DropMeans, GaveNoHello, ReadsStay, ReachesFlood, RoundsMean};
    ghost use Rattle.session_core.specs.Settling.{Acts, EndsWaiting};

    /// Reads, then captures, writes and reads again, until there was nothing to read after all was written.
    pub(crate) fn make_rounds(&mut self, c: Conn) -> Result<(), End>
        requires open { IsSome (open_client self.old.clients c.0) }
        ensures windows { KeepsWindows self.old self.new }
        ensures calm { OnOk result (IsCalm self.new.desk (open_client self.new.clients c.0)) }
        ensures waiting { OnOk result (EndsWaiting B.provider B.connection c.0 self.old self.new) }
        ensures means { IfErr result (λ e. RoundsMean self.new.lines (B.connection self.old.bay c.0) e (B.connection self.new.bay c.0)) }
        ensures ends { LeavesEnds c.0 self.old.ends result self.new.ends }
        ensures acts { Acts B.provider B.connection c.0 self.old self.new }
        ensures others { OthersStay (B.connection self.old.bay) (B.connection self.new.bay) c.0 }
        ensures provider { B.provider self.new.bay ≡ B.provider self.old.bay }
    {
        let mut left = self.receive_all(c, FLOOD)?;
        'rounds: loop {
            self.capture_all(c)?;
            self.send_all(c)?;
            let rest = self.receive_all(c, left)?;
            if rest == left {
                return self.check_greeted(c);
            }
            left = rest;
        }
    }

    /// Reads until there is nothing to read. Answers how much less may be read.
    fn receive_all(&mut self, c: Conn, budget: u32) -> Result<u32, End>
        requires open { IsSome (open_client self.old.clients c.0) }
        requires near { ReachesFlood budget (B.connection self.old.bay c.0).given }
        ensures windows { KeepsWindows self.old self.new }
        ensures open { OnOk result (IsSome (open_client self.new.clients c.0)) }
        ensures ends { LeavesEnds c.0 self.old.ends result self.new.ends }
        ensures less { IfOk result (λ left. left ≤ budget) }
        ensures near { IfOk result (λ left. ReachesFlood left (B.connection self.new.bay c.0).given) }
        ensures quiet { IfOk result (λ left. left ≡ budget → self.new.clients ≡ self.old.clients) }
        ensures waiting { OnOk result (EndsWaiting B.provider B.connection c.0 self.old self.new) }
        ensures means { IfErr result (λ e. DropMeans self.new.lines (B.connection self.old.bay c.0) e (B.connection self.new.bay c.0)) }
        ensures acts { Acts B.provider B.connection c.0 self.old self.new }
        ensures others { OthersStay (B.connection self.old.bay) (B.connection self.new.bay) c.0 }
        ensures provider { B.provider self.new.bay ≡ B.provider self.old.bay }
    {
        let mut left = budget;
        'reads: loop {
            match self.receive(c) {
                Received::Took(count) => {
                    if count > left {
                        let _ = self.is_painted();
                        return Err(End::Unbuilt);
                    }
                    left -= count;
                }
                Received::Again => return Ok(left),
                Received::Closed => unreachable!(),
                Received::Ended(end) => return Err(end),
                Received::NoMemory => return Err(End::Short),
            }
        }
    }

    /// Captures each window that the client has mapped.
    fn capture_all(&mut self, c: Conn) -> Result<(), End>
        requires open { IsSome (open_client self.old.clients c.0) }
        ensures windows { KeepsWindows self.old self.new }
        ensures open { IsSome (open_client self.new.clients c.0) }
        ensures clean { OnOk result (AreClean self.new.desk (open_client self.new.clients c.0)) }
        ensures short { IfErr result (λ e. e ≡ End.Short) }
        ensures ends { LeavesEnds c.0 self.old.ends result self.new.ends }
        ensures acts { Acts B.provider B.connection c.0 self.old self.new }
        ensures bay { self.new.bay ≡ self.old.bay }
    {
        for place in 0..self.desk.len() {
            let Some(window) = self.desk.as_slice().get(place) else {
                return Ok(());
            };
            let wid = window.wid;
            match self.capture(c, wid) {
                Captured::NoMemory | Captured::Spent => return Err(End::Short),
                _ => {}
            }
        }
        Ok(())
    }

    /// Writes until nothing waits.
    fn send_all(&mut self, c: Conn) -> Result<(), End>
        requires open { IsSome (open_client self.old.clients c.0) }
        ensures windows { KeepsWindows self.old self.new }
        ensures open { OnOk result (IsSome (open_client self.new.clients c.0)) }
        ensures idle { OnOk result (WaitsForNothing (open_client self.new.clients c.0)) }
        ensures sources { OnOk result (sources_in (open_client self.new.clients c.0) ≡ sources_in (open_client self.old.clients c.0)) }
        ensures reads { ReadsStay (B.connection self.old.bay c.0) (B.connection self.new.bay c.0) }
        ensures means { IfErr result (λ e. DropMeans self.new.lines (B.connection self.old.bay c.0) e (B.connection self.new.bay c.0)) }
        ensures ends { LeavesEnds c.0 self.old.ends result self.new.ends }
        ensures acts { Acts B.provider B.connection c.0 self.old self.new }
        ensures others { OthersStay (B.connection self.old.bay) (B.connection self.new.bay) c.0 }
        ensures provider { B.provider self.new.bay ≡ B.provider self.old.bay }
    {
        'writes: loop {
            let wrote = self.send_some(c)?;
            if !wrote {
                return Ok(());
            }
        }
    }

    /// Writes until something was taken, or nothing waits: whether something was taken.
    fn send_some(&mut self, c: Conn) -> Result<bool, End>
        requires open { IsSome (open_client self.old.clients c.0) }
        ensures windows { KeepsWindows self.old self.new }
        ensures open { OnOk result (IsSome (open_client self.new.clients c.0)) }
        ensures ends { LeavesEnds c.0 self.old.ends result self.new.ends }
        ensures less { IfOk result (λ wrote. WritesLess wrote (waiting_at self.old.clients c.0) (waiting_at self.new.clients c.0)) }
        ensures idle { result ≡ Ok false → WaitsForNothing (open_client self.new.clients c.0) }
        ensures sources { OnOk result (sources_in (open_client self.new.clients c.0) ≡ sources_in (open_client self.old.clients c.0)) }
        ensures reads { ReadsStay (B.connection self.old.bay c.0) (B.connection self.new.bay c.0) }
        ensures means { IfErr result (λ e. DropMeans self.new.lines (B.connection self.old.bay c.0) e (B.connection self.new.bay c.0)) }
        ensures acts { Acts B.provider B.connection c.0 self.old self.new }
        ensures others { OthersStay (B.connection self.old.bay) (B.connection self.new.bay) c.0 }
        ensures provider { B.provider self.new.bay ≡ B.provider self.old.bay }
    {
        for tried in 0..DRY_LIMIT {
            match self.send(c, SEND_LIMIT) {
                Sent::Took(_) => return Ok(true),
                Sent::Again => {}
                Sent::Idle => return Ok(false),
                Sent::Closed => unreachable!(),
                Sent::Ended(end) => return Err(end),
                Sent::NoMemory => return Err(End::Short),
            }
        }
        Err(End::Unbuilt)
    }

    /// A client that has not said a whole hello is not settled.
    fn check_greeted(&self, c: Conn) -> Result<(), End>
        requires open { IsSome (open_client self.now.clients c.0) }
        ensures unbuilt { IfErr result (λ end. end ≡ End.Unbuilt) }
        ensures unheard { IfErr result (λ e. GaveNoHello (B.connection self.now.bay c.0).given) }
        ensures greeted { OnOk result (IsAttached self.now.clients c.0) }
    {
        let _ = self.is_painted();
        if is_greeted(&self.clients, c.0 as usize) {
            return Ok(());
        }
        Err(End::Unbuilt)
    }
}

fn is_greeted(clients: &[Option<Client>], k: usize) -> bool
    ensures { IsTrue result ↔ IsAttachedIn clients.now k }
{
    match clients.get(k) {
        Some(Some(client)) => client.is_greeted(),
        _ => false,
    }
}
