// Each step keeps what every session keeps. Each law makes the calls of the laws that it stands on.
ghost use Rattle.session_steps.specs.Laws.{
  BeginsSteady,
  TickKeeps,
  OrderKeeps,
  AcceptKeeps,
  ReceiveKeeps,
  SendKeeps,
  PaintKeeps,
  PaintFits,
  SessionOwesWhatDiffers,
};

use attached_client::{a_change_keeps_a_client, a_change_keeps_marks};
use connection_ends::{causes_count_from_earlier, causes_stay, only_settled_speaks_of_the_desktop};
use connection_steps::{
    a_paint_line_keeps_a_connection, a_refused_client_gets_its_goodbye, a_write_keeps_a_connection,
    an_accepted_connection_is_kept, an_attached_client_has_greeted, differing_pixels_are_owed,
    hearing_keeps_a_connection, what_ends_a_talk_was_given,
};
use open_connection::a_change_keeps_a_connection;

/// A session of a fresh provider, before its first step; the clock goes on; and a provider is asked for peers.
pub fn a_session_begins_steady<B>()
    ensures begins { BeginsSteady B }
    ensures tick { TickKeeps B }
    ensures order { OrderKeeps B }
{
    causes_stay();
}

/// An accept, whatever it answers.
pub fn an_accept_keeps_a_session<B>()
    ensures { AcceptKeeps B }
{
    an_accepted_connection_is_kept();
    causes_stay();
}

/// A read, whatever the bytes say and whomever it takes over.
pub fn a_read_keeps_a_session<B>()
    ensures { ReceiveKeeps B }
{
    an_accepted_connection_is_kept();
    hearing_keeps_a_connection();
    what_ends_a_talk_was_given();
    an_attached_client_has_greeted();
    a_refused_client_gets_its_goodbye();
    causes_stay();
    causes_count_from_earlier();
    only_settled_speaks_of_the_desktop();
}

/// A write, whatever it takes.
pub fn a_write_keeps_a_session<B>()
    ensures { SendKeeps B }
{
    an_accepted_connection_is_kept();
    a_write_keeps_a_connection();
    causes_stay();
    causes_count_from_earlier();
    only_settled_speaks_of_the_desktop();
}

/// A paint line, which changes the desktop and the numbers opened so far as it says; what it needs of each client is there.
pub fn a_paint_line_keeps_a_session<B>()
    ensures keeps { PaintKeeps B }
    ensures fits { PaintFits B }
{
    a_paint_line_keeps_a_connection();
    a_change_keeps_a_connection();
    a_change_keeps_a_client();
    a_change_keeps_marks();
}

/// Each pixel in which an attached client's picture, read from the bytes sent to it, differs from the desktop is owed.
pub fn sessions_owe_what_differs<B>()
    ensures { SessionOwesWhatDiffers B }
{
    differing_pixels_are_owed();
}
