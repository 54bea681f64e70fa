// A session is settled, or given up.
ghost use Rattle.std.specs.Prelude.{◌≡◌};
ghost use Rattle.session_state.specs.Views.{known};
ghost use Rattle.whole_session.specs.Ending.{SettlesTo, EndRightly, AbandonsTo};

use crate::session::Session;
use connection_ends::End;
use connection_table::all_ended;
use link_bay::Bay;
use open_connection::Connection;
use session_settling::{How, close_all, settle};
use session_steps::{ends_of_settling_have_causes, settling_keeps_a_session};
use std::marker::Model;
use window_model::Desk;

/// A connection whatever room it has, for laws alone.
#[derive(Drop)]
pub(crate) struct Plain {
    connection: Connection,
}

impl Model for Plain {
    ghost use Rattle.open_connection.specs.Connection.{ConnectionSeen, connection_in};

    ghost Value = { ConnectionSeen };

    ghost view = { λ p. connection_in p.connection };
}

/// What a settled session leaves: the end of each connection by its number, the last windows, and the provider.
#[derive(Drop)]
pub struct Calm<B: Drop> {
    pub how: How,
    pub ends: Vec<End>,
    pub desk: Desk,
    pub bay: B,
}

/// What an abandoned session leaves: the end of each connection by its number, and the provider.
#[derive(Drop)]
pub struct Abandoned<B: Drop> {
    pub ends: Vec<End>,
    pub bay: B,
}

impl<B: Bay + Drop> Session<B> {
    /// Accepts whoever comes, settles each connection in turn, and closes those that are still open where it stopped early.
    pub fn settle(self) -> Calm<B>
        ensures desk { result.desk ≡ self.seen.desk }
        ensures settles { SettlesTo (known B.tells B.provider B.connection) self.seen result.how result.ends.items result.bay }
        ensures causes { EndRightly (known B.tells B.provider B.connection) self.seen.desk result.ends.items result.bay }
    {
        settling_keeps_a_session::<B>();
        ends_of_settling_have_causes::<B>();
        all_ended::<Plain, End>();
        let Session {
            paints: _,
            place: _,
            mut state,
        } = self;
        let how = settle(&mut state);
        close_all(&mut state);
        let (desk, ends, bay) = state.into_parts();
        Calm {
            how,
            ends,
            desk,
            bay,
        }
    }

    /// Closes each connection that is open; its end is `Unended`. It takes no memory.
    pub fn abandon(self) -> Abandoned<B>
        ensures { AbandonsTo (known B.tells B.provider B.connection) self.seen result.ends.items result.bay }
    {
        settling_keeps_a_session::<B>();
        all_ended::<Plain, End>();
        let Session {
            paints: _,
            place: _,
            mut state,
        } = self;
        close_all(&mut state);
        let (_desk, ends, bay) = state.into_parts();
        Abandoned { ends, bay }
    }
}
