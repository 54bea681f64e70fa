// What becomes of a cause while the connections go on. Each law makes the calls of the laws that it stands on.
ghost use Rattle.connection_ends.specs.Laws.{CausesStay, CausesCountFromEarlier, OnlySettledSpeaksOfTheDesktop};

use packet_kinds::more_bytes_only_say_more;

/// An ended connection keeps its cause while others go on.
pub fn causes_stay()
    ensures { CausesStay }
{
    more_bytes_only_say_more();
}

/// What has risen since a moment has risen since every earlier one.
pub fn causes_count_from_earlier()
    ensures { CausesCountFromEarlier }
{}

/// Another desktop is another cause of the end `Settled` alone.
pub fn only_settled_speaks_of_the_desktop()
    ensures { OnlySettledSpeaksOfTheDesktop }
{}
