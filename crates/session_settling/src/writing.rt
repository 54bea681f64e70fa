// What waits for a connection is written.
ghost use Rattle.session_state.specs.Views.{known};
ghost use Rattle.session_settling.specs.Through.{IsSettling, GoesThrough, IsOn};
ghost use Rattle.session_settling.specs.Writing.{WritesOut};

use client_outbox::bytes_go_out_in_order;
use connection_ends::End;
use link_bay::Bay;
use rect_regions::Region;
use session_state::State;
use session_steps::{Sent, ends_of_settling_have_causes, settling_keeps_a_session};
use xp_base::Conn;

/// How many writes in a row may take nothing.
const DRY_LIMIT: u32 = 1_000;

/// How many bytes one write offers at most.
const SEND_LIMIT: u32 = 65_536;

/// Writes until nothing waits, and says whether anything did. Where 1,000 writes in a row take nothing, or one finds no memory,
/// the connection ends; `None` where it is not open then.
pub(crate) fn send_all<B: Bay + Drop>(state: &mut State<B>, c: Conn) -> Option<bool>
    requires settling { IsSettling (known B.tells B.provider B.connection) state.old }
    ensures through { GoesThrough (known B.tells B.provider B.connection) (IsOn c.0) state.old state.new }
    ensures written { WritesOut (known B.tells B.provider B.connection) c.0 state.old result state.new }
{
    settling_keeps_a_session::<B>();
    ends_of_settling_have_causes::<B>();
    bytes_go_out_in_order::<Region>();
    let mut dry: u32 = 0;
    let mut waited = false;
    'writes: loop {
        match state.send(c, SEND_LIMIT) {
            Sent::Took(_) => {
                waited = true;
                dry = 0;
            }
            Sent::Again => {
                waited = true;
                dry += 1;
                if dry == DRY_LIMIT {
                    state.end(c, End::Stalled);
                    return None;
                }
            }
            Sent::Idle => return Some(waited),
            Sent::NoMemory => {
                state.end(c, End::Short);
                return None;
            }
            Sent::Closed => return None,
            Sent::Ended(_) => return None,
        }
    }
}
