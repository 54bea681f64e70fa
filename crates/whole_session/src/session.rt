// The session, and what is asked of it.
ghost use Rattle.std.specs.Prelude.{◌≡◌, None, IfOk, IfErr, IfSome, length, nat_le};
ghost use Rattle.link_bay.specs.Provider.{IsFresh};
ghost use Rattle.connection_table.specs.Tables.{IsNextOpen, NoneFrom};
ghost use Rattle.session_state.specs.Views.{known};
ghost use Rattle.whole_session.specs.Session.{IsSession, started};

use link_bay::Bay;
use paint_script::{Paints, desk_at_start, opened_numbers};
use session_state::State;
use session_steps::a_session_begins_steady;
use std::alloc::Global;
use std::marker::Model;
use window_model::Desk;
use xp_base::Conn;

/// One session of windows, which a script's paint lines change, and the connections that see them.
#[derive(Drop)]
pub struct Session<B: Bay + Drop> {
    pub(crate) paints: Paints,
    /// How many lines were painted.
    pub(crate) place: usize,
    pub(crate) state: State<B>,
}

impl<B: Bay + Drop> Model for Session<B> {
    ghost use Rattle.session_state.specs.Views.{known};
    ghost use Rattle.whole_session.specs.Session.{SessionSeen, IsSession};

    ghost Value = { SessionSeen B };

    ghost view = { λ s. record { lines = s.paints; place = s.place; seen = s.state } };

    ghost invariant = { λ s. IsSession (known B.tells B.provider B.connection) s.paints s.place s.state };
}

impl<B: Bay + Drop> Session<B> {
    /// A session before its first paint line. `Err` would be want of memory, and hand the provider back.
    pub fn new(alloc: Global, paints: Paints, bay: B) -> Result<Session<B>, B>
        requires fresh { IsFresh (B.provider bay) }
        ensures ok { IfOk result (λ s. s ≡ started paints bay) }
        ensures err { IfErr result (λ back. back ≡ bay) }
    {
        desk_at_start();
        opened_numbers();
        a_session_begins_steady::<B>();
        let _count = paints.len();
        Ok(Session {
            paints,
            place: 0,
            state: State::new(alloc, bay),
        })
    }

    /// Whether no paint line is left; and what every session keeps, as a fact for proofs.
    pub fn is_painted(&self) -> bool
        ensures value { result ≡ nat_le (length self.now.lines) self.now.place }
        ensures kept { IsSession (known B.tells B.provider B.connection) self.now.lines self.now.place self.now.seen }
    {
        self.place >= self.paints.len()
    }

    /// The windows.
    pub fn desk(&self) -> &Desk
        ensures { result.now ≡ self.now.seen.desk }
    {
        self.state.desk()
    }

    /// In milliseconds.
    pub fn clock(&self) -> u64
        ensures { result ≡ self.now.seen.clock }
    {
        self.state.clock()
    }

    /// How many packets of clients were ignored, or the greatest `u64` where they are more.
    pub fn ignored(&self) -> u64
        ensures { result ≡ self.now.seen.ignored }
    {
        self.state.ignored()
    }

    /// Whether a hello was accepted.
    pub fn greeted(&self) -> bool
        ensures { result ≡ self.now.seen.greeted }
    {
        self.state.greeted()
    }

    /// Whether an accept failed.
    pub fn accept_failed(&self) -> bool
        ensures { result ≡ self.now.seen.accept_failed }
    {
        self.state.accept_failed()
    }

    /// The open connection of least number that is at least `from`.
    pub fn open_conn(&self, from: u32) -> Option<Conn>
        ensures some { IfSome result (λ c. IsNextOpen self.now.seen.slots from c.0) }
        ensures none { result ≡ None → NoneFrom self.now.seen.slots from }
    {
        self.state.next_open(from)
    }
}
