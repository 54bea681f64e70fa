// All connections are settled, or closed as they are.
ghost use Rattle.session_state.specs.Views.{known};
ghost use Rattle.session_settling.specs.Through.{IsSettling, GoesThrough, IsAny};
ghost use Rattle.std.specs.Prelude.{◌≡◌, option_copied};
ghost use Rattle.session_settling.specs.Settled.{SettledSo, NextEnds, has_lost, ClosesAll};

use crate::rounds::settle_connection;
use connection_ends::End;
use link_bay::Bay;
use session_state::State;
use session_steps::{Accepted, ends_of_settling_have_causes, settling_keeps_a_session};

/// How a settling ended.
#[derive(Clone, Copy, Debug, PartialEq, Eq)]
pub enum How {
    /// No connection is open, and nobody comes.
    Settled,
    /// There was no memory: some connections may be open.
    NoMemory,
    /// An accept failed: some connections may be open.
    BayFault,
}

/// Accepts whoever comes, and settles each connection in turn, that of least number first. Each ends with its cause.
pub fn settle<B: Bay + Drop>(state: &mut State<B>) -> How
    requires settling { IsSettling (known B.tells B.provider B.connection) state.old }
    ensures through { GoesThrough (known B.tells B.provider B.connection) IsAny state.old state.new }
    ensures settled { SettledSo (known B.tells B.provider B.connection) state.old result state.new }
{
    settling_keeps_a_session::<B>();
    'turns: loop {
        match state.accept() {
            Accepted::Conn(_) => {}
            Accepted::Failed => return How::BayFault,
            Accepted::NoMemory => return How::NoMemory,
            Accepted::Nobody => match settle_next(state) {
                Next::Ended => {}
                Next::Lost => return How::NoMemory,
                Next::NoneOpen => return How::Settled,
            },
            Accepted::Full => match settle_next(state) {
                Next::Ended => {}
                Next::Lost => return How::NoMemory,
                Next::NoneOpen => unreachable!(),
            },
        }
    }
}

/// What became of the open connection of least number.
pub(crate) enum Next {
    /// None is open.
    NoneOpen,
    /// It has ended.
    Ended,
    /// It has ended for want of memory, or because the run stopped.
    Lost,
}

/// Settles the open connection of least number.
fn settle_next<B: Bay + Drop>(state: &mut State<B>) -> Next
    requires settling { IsSettling (known B.tells B.provider B.connection) state.old }
    ensures through { GoesThrough (known B.tells B.provider B.connection) IsAny state.old state.new }
    ensures next { NextEnds (known B.tells B.provider B.connection) state.old result state.new }
{
    let Some(c) = state.next_open(0) else {
        return Next::NoneOpen;
    };
    settle_connection(state, c);
    if is_lost(state.ended(c)) {
        return Next::Lost;
    }
    Next::Ended
}

fn is_lost(end: Option<&End>) -> bool
    ensures { result ≡ has_lost (option_copied end.entry) }
{
    matches!(end, Some(End::Short | End::Unended))
}

/// Closes each connection that is open with the end `Unended`. It takes no memory.
pub fn close_all<B: Bay + Drop>(state: &mut State<B>)
    requires settling { IsSettling (known B.tells B.provider B.connection) state.old }
    ensures through { GoesThrough (known B.tells B.provider B.connection) IsAny state.old state.new }
    ensures closed { ClosesAll (known B.tells B.provider B.connection) state.old state.new }
{
    settling_keeps_a_session::<B>();
    ends_of_settling_have_causes::<B>();
    'open: while let Some(c) = state.next_open(0) {
        state.end(c, End::Unended);
    }
}
