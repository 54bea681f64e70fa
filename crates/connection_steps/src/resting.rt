// What follows once a client is at rest. The law makes the calls of the laws that it stands on.
ghost use Rattle.connection_steps.specs.Resting.{RestShows, RestSettles, ClearRests, GreetingSaysNothing};

use client_delivery::{each_differing_pixel_is_owed, what_waits_lays_out_the_desktop};
use client_talk::a_mapped_window_is_marked;
use delivery_model::empty_sets_have_no_point;

/// A client for which nothing waits, and which is owed nothing on the windows that it has mapped, shows the desktop; it is settled
/// where a read since then found nothing more. So it is at rest once nothing is left to be drawn and nothing waits. One whose
/// hello was not accepted yet has given no whole packet.
pub fn a_client_at_rest_shows_the_desktop()
    ensures shows { RestShows }
    ensures settles { RestSettles }
    ensures clear { ClearRests }
    ensures greeting { GreetingSaysNothing }
{
    each_differing_pixel_is_owed();
    what_waits_lays_out_the_desktop();
    a_mapped_window_is_marked();
    empty_sets_have_no_point();
}
