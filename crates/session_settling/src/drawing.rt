// What is left of a client's windows is drawn and written.
ghost use Rattle.session_state.specs.Views.{known};
ghost use Rattle.session_settling.specs.Through.{IsSettling, GoesThrough, IsOn};
ghost use Rattle.session_settling.specs.Drawing.{DrawsOut, DrawsOne};

use crate::writing::send_all;
use connection_ends::End;
use link_bay::Bay;
use session_state::State;
use session_steps::{
    ends_of_settling_have_causes, settling_keeps_a_session, windows_drawn_at_once_are_drawn_by_acts,
};
use xp_base::Conn;

/// Writes what waits, and draws each window of the desktop at once and writes that, where anything is left to be drawn. It says
/// whether anything was written; `None` where the connection is not open then.
pub(crate) fn draw_all<B: Bay + Drop>(state: &mut State<B>, c: Conn) -> Option<bool>
    requires settling { IsSettling (known B.tells B.provider B.connection) state.old }
    ensures through { GoesThrough (known B.tells B.provider B.connection) (IsOn c.0) state.old state.new }
    ensures drawn { DrawsOut (known B.tells B.provider B.connection) c.0 state.old result state.new }
{
    settling_keeps_a_session::<B>();
    let is_clear = state.is_clear(c);
    let mut waited = send_all(state, c)?;
    if is_clear {
        return Some(waited);
    }
    let mut place = 0;
    'windows: while place < state.desk().len() {
        let more = draw_one(state, c, place)?;
        waited |= more;
        place += 1;
    }
    Some(waited)
}

/// Draws the window at this place of the desktop and writes that.
fn draw_one<B: Bay + Drop>(state: &mut State<B>, c: Conn, place: usize) -> Option<bool>
    requires settling { IsSettling (known B.tells B.provider B.connection) state.old }
    ensures through { GoesThrough (known B.tells B.provider B.connection) (IsOn c.0) state.old state.new }
    ensures drawn { DrawsOne (known B.tells B.provider B.connection) c.0 place state.old result state.new }
{
    settling_keeps_a_session::<B>();
    ends_of_settling_have_causes::<B>();
    windows_drawn_at_once_are_drawn_by_acts::<B>();
    if state.draw(c, place).is_err() {
        state.end(c, End::Short);
        return None;
    }
    send_all(state, c)
}
