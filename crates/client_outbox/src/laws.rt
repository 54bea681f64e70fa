// What writing, emptying and clipping come to, each law the clause of a function that does nothing.
ghost use Rattle.client_outbox.specs.Laws.{PutFollows, TakenFromFront, ReliefEnds, ForgettingKeepsTheRest, ClippingKeepsTheRest, ForgottenAreEmpty, ClipsAreReliefs, ClippedLieInside};

use rect_regions::Points;

/// Bytes go out in the order in which their packets were put, each once: the bytes that wait are those
/// that a send took and then those that wait after it, and a packet's bytes come behind all others.
pub fn bytes_go_out_in_order<R: Points>()
    ensures put { PutFollows R }
    ensures taken { TakenFromFront R }
{}

/// A draw relieves its points until its last byte was taken, and then no longer.
pub fn a_relief_ends_with_its_last_byte<R: Points>()
    ensures { ReliefEnds R.has }
{}

/// Emptying and clipping a window's reliefs change no bytes, no busy window and no other window's reliefs.
pub fn only_reliefs_change<R: Points>()
    ensures forgotten { ForgettingKeepsTheRest R.has }
    ensures clipped { ClippingKeepsTheRest R.has }
{}

/// The reliefs of a window that were forgotten have no point.
pub fn forgotten_reliefs_are_empty<R: Points>()
    ensures { ForgottenAreEmpty R.has }
{}

/// Clipped reliefs have the points that they had within the size.
pub fn clipped_reliefs_lie_inside<R: Points>()
    ensures change { ClipsAreReliefs R }
    ensures points { ClippedLieInside R.has }
{}
