// What a connection has to say is read out.
ghost use Rattle.std.specs.Prelude.{◌≤◌};
ghost use Rattle.session_state.specs.Views.{known};
ghost use Rattle.session_settling.specs.Through.{IsSettling, GoesThrough, IsOn};
ghost use Rattle.session_settling.specs.Reading.{ReadsOut};

use link_bay::Bay;
use session_state::State;
use session_steps::{Received, a_read_keeps_a_session, settling_keeps_a_session};
use xp_base::Conn;

/// How it went.
pub(crate) enum ReadOut {
    /// The connection is not open.
    Over,
    /// It gave as many bytes as it may, or more.
    Flooded,
    /// A read had to wait, and so many bytes more may come.
    Out(u32),
}

/// Reads until there is nothing to read, or as many bytes as may come were given.
pub(crate) fn receive_all<B: Bay + Drop>(state: &mut State<B>, c: Conn, rest: u32) -> ReadOut
    requires settling { IsSettling (known B.tells B.provider B.connection) state.old }
    requires some { 1 ≤ rest }
    ensures through { GoesThrough (known B.tells B.provider B.connection) (IsOn c.0) state.old state.new }
    ensures read { ReadsOut (known B.tells B.provider B.connection) c.0 rest state.old result state.new }
{
    settling_keeps_a_session::<B>();
    let mut left = rest;
    'reads: loop {
        match state.receive(c) {
            Received::Took(count) => {
                left = left.saturating_sub(count);
                if left == 0 {
                    return ReadOut::Flooded;
                }
            }
            Received::Again => return ReadOut::Out(left),
            Received::Closed => return ReadOut::Over,
            Received::Ended(_) => return ReadOut::Over,
            Received::NoMemory => return ReadOut::Over,
        }
    }
}
