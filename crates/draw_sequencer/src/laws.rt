// What filing and leaving come to, each law the clause of a function that does nothing.
ghost use Rattle.draw_sequencer.specs.Laws.{LeavingAreReady, ReadyLeaves, NoneIsReady, OrderStays, ReliefsStay};

use rect_regions::Points;

/// As many jobs leave in a row, once one has its encoding, as `leaving` says before: each that is ready
/// leaves, and none other.
pub fn as_many_leave_as_are_ready<R: Points>()
    ensures leaving { LeavingAreReady R }
    ensures some { ReadyLeaves R }
    ensures none { NoneIsReady R }
{}

/// A result changes neither the order of the jobs nor what they relieve, in whatever order results come.
pub fn results_change_no_order<R: Points>()
    ensures order { OrderStays R }
    ensures reliefs { ReliefsStay R.has }
{}
