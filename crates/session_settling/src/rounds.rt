// One connection is settled.
ghost use Rattle.std.specs.Prelude.{◌≡◌, None};
ghost use Rattle.connection_table.specs.Tables.{open_at};
ghost use Rattle.session_state.specs.Views.{known};
ghost use Rattle.session_settling.specs.Through.{IsSettling, GoesThrough, IsOn};
ghost use Rattle.session_steps.specs.Drawing.{is_clear_at};
ghost use Rattle.session_settling.specs.Rounds.{rests, captures_after};

use crate::drawing::draw_all;
use crate::reading::{ReadOut, receive_all};
use connection_ends::End;
use connection_steps::a_client_at_rest_shows_the_desktop;
use link_bay::Bay;
use session_state::State;
use session_steps::{ends_of_settling_have_causes, settling_keeps_a_session};
use xp_base::Conn;

/// How many bytes a connection may give, and one more.
const FLOOD: u32 = 4_194_304;

/// Makes rounds of reading, drawing and writing until the connection has ended: settled, after a round in which nothing was read
/// and nothing written, and nothing is left to be drawn.
pub(crate) fn settle_connection<B: Bay + Drop>(state: &mut State<B>, c: Conn)
    requires settling { IsSettling (known B.tells B.provider B.connection) state.old }
    ensures through { GoesThrough (known B.tells B.provider B.connection) (IsOn c.0) state.old state.new }
    ensures ended { open_at state.new.slots c.0 ≡ None }
{
    settling_keeps_a_session::<B>();
    ends_of_settling_have_causes::<B>();
    a_client_at_rest_shows_the_desktop();
    let mut left = FLOOD;
    let mut captures: u32 = 3;
    'rounds: loop {
        let now = match receive_all(state, c, left) {
            ReadOut::Over => return,
            ReadOut::Flooded => return state.end(c, End::Flooded),
            ReadOut::Out(now) => now,
        };
        if !state.is_attached(c) {
            return state.end(c, End::Silent);
        }
        let Some(wrote) = draw_all(state, c) else {
            return;
        };
        if is_at_rest(state, c, now == left, wrote) {
            return state.end(c, End::Settled);
        }
        captures = captures_left(now == left, captures);
        left = now;
    }
}

/// Whether nothing was read in a round, nothing written, and nothing is left to be drawn.
fn is_at_rest<B: Bay + Drop>(state: &State<B>, c: Conn, was_quiet: bool, wrote: bool) -> bool
    ensures { result ≡ rests was_quiet wrote (is_clear_at c.0 state.now) }
{
    was_quiet && !wrote && state.is_clear(c)
}

/// How many captures of each window are left after a round, by whether nothing was read in it.
fn captures_left(was_quiet: bool, captures: u32) -> u32
    ensures { result ≡ captures_after was_quiet captures }
{
    if was_quiet {
        return captures.saturating_sub(1);
    }
    2
}
