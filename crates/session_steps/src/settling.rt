// A session is settled. Each law makes the calls of the laws that it stands on.
ghost use Rattle.session_steps.specs.Drawing.{DrawKeeps};
ghost use Rattle.session_steps.specs.Settling.{DrawnAtOnce, SettlingBegins, SettlingKeeps, CauseCame, AllEndRightly};

use crate::laws::{a_read_keeps_a_session, a_write_keeps_a_session, an_accept_keeps_a_session};
use attached_client::drawing_keeps_a_client;
use connection_ends::{causes_count_from_earlier, causes_stay, only_settled_speaks_of_the_desktop};
use connection_steps::a_paint_line_keeps_a_connection;

/// A capture, a result, and jobs given back.
pub fn drawing_keeps_a_session<B>()
    ensures { DrawKeeps B }
{
    a_paint_line_keeps_a_connection();
    drawing_keeps_a_client();
    causes_stay();
    causes_count_from_earlier();
    only_settled_speaks_of_the_desktop();
}

/// A window that is drawn at once is drawn by captures, results, and jobs given back.
pub fn windows_drawn_at_once_are_drawn_by_acts<B>()
    ensures { DrawnAtOnce B }
{}

/// What every session keeps it keeps while it is settled, through all acts.
pub fn settling_keeps_a_session<B>()
    ensures begins { SettlingBegins B }
    ensures keeps { SettlingKeeps B }
{
    an_accept_keeps_a_session::<B>();
    a_read_keeps_a_session::<B>();
    a_write_keeps_a_session::<B>();
    drawing_keeps_a_session::<B>();
    causes_stay();
    causes_count_from_earlier();
    only_settled_speaks_of_the_desktop();
}

/// An end has its cause where this came since some moment of settling; and once a session is settled each end has its cause,
/// counted from when the connection was handed out.
pub fn ends_of_settling_have_causes<B>()
    ensures came { CauseCame B }
    ensures all { AllEndRightly B }
{
    causes_stay();
    causes_count_from_earlier();
    only_settled_speaks_of_the_desktop();
}
