// What brings every connection to the last windows.
ghost use Rattle.std.specs.Prelude.{◌≡◌, ◌≢◌, true, length};
ghost use Rattle.xp_base.specs.Counts.{Rose};

use crate::state::Session;
use client_connection::End;
use link_bay::Bay;
use window_model::Desk;

/// How a settling ended.
#[derive(Clone, Copy, Debug, PartialEq, Eq)]
pub enum How {
    /// No connection is open, and nobody comes.
    Settled,
    NoMemory,
    /// An accept failed.
    BayFault,
}

/// What a settled session leaves: the end of each connection by its number, the last windows, and the
/// provider.
#[derive(Drop)]
pub struct Calm<B: Drop> {
    pub how: How,
    pub ends: Vec<End>,
    pub desk: Desk,
    pub bay: B,
}

impl<B: Bay + Drop> Session<B> {
    ghost use Rattle.session_core.specs.State.{KeepsWindows};
    ghost use Rattle.session_core.specs.Ends.{KeepsEnds, AllEnded, NoMoreShort};
    ghost use Rattle.session_core.specs.Causes.{EndsHaveCauses, EndedStay};
    ghost use Rattle.session_core.specs.Settling.{Settles, SettlesOn};

    /// Accepts whoever comes, and settles each connection in turn, that of least number first. Each ends with
    /// its cause: `Settled` where after the last byte sent to it a read found nothing more and it shows
    /// exactly the last windows, `Unbuilt` where it failed or said or did what is not built yet, `Short` for
    /// want of memory. Nothing is drawn that a capture did not make.
    pub fn settle(mut self) -> Calm<B>
        ensures desk { result.desk ≡ self.desk }
        ensures counted { length result.ends.items ≡ (B.provider result.bay).count }
        ensures ends { KeepsEnds self.ends result.ends.items }
        ensures ended { result.how ≡ How.Settled → AllEnded result.ends.items }
        ensures causes { EndsHaveCauses B.tells self.lines self.desk (B.connection result.bay) self.ends result.ends.items }
        ensures stays { EndedStay (B.connection self.bay) (B.connection result.bay) self.ends }
        ensures settles { Settles B.provider B.connection B.tells self result.ends.items result.bay }
        ensures short { result.how ≢ How.NoMemory → NoMoreShort self.ends result.ends.items }
        ensures fault { result.how ≡ How.BayFault → Rose (B.provider self.bay).faults (B.provider result.bay).faults }
        ensures settled { result.how ≡ How.Settled → Rose (B.provider self.bay).lulls (B.provider result.bay).lulls }
        ensures served { result.how ≡ How.Settled → B.tells ≡ true → (B.provider result.bay).room ≡ 0 }
        ensures asked { (B.provider result.bay).asked ≡ (B.provider self.bay).asked }
        ensures well { result.how ≢ How.BayFault → (B.provider result.bay).faults ≡ (B.provider self.bay).faults }
    {
        let how = self.settle_all();
        let Session {
            alloc: _,
            paints: _,
            place: _,
            desk,
            bay,
            clients: _,
            ends,
        } = self;
        Calm {
            how,
            ends,
            desk,
            bay,
        }
    }

    fn settle_all(&mut self) -> How
        ensures windows { KeepsWindows self.old self.new }
        ensures ends { KeepsEnds self.old.ends self.new.ends }
        ensures ended { result ≡ How.Settled → AllEnded self.new.ends }
        ensures turn { SettlesOn B.provider B.connection B.tells self.old self.new }
        ensures short { result ≢ How.NoMemory → NoMoreShort self.old.ends self.new.ends }
        ensures fault { result ≡ How.BayFault → Rose (B.provider self.old.bay).faults (B.provider self.new.bay).faults }
        ensures settled { result ≡ How.Settled → Rose (B.provider self.old.bay).lulls (B.provider self.new.bay).lulls }
        ensures served { result ≡ How.Settled → B.tells ≡ true → (B.provider self.new.bay).room ≡ 0 }
        ensures asked { (B.provider self.new.bay).asked ≡ (B.provider self.old.bay).asked }
        ensures well { result ≢ How.BayFault → (B.provider self.new.bay).faults ≡ (B.provider self.old.bay).faults }
    {
        'turns: loop {
            if let Some(how) = self.settle_turn() {
                return how;
            }
        }
    }
}
