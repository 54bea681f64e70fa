// What the list of unacknowledged draws comes to, each law the clause of a function that does nothing.
ghost use Rattle.ack_tracker.specs.Laws.{GreatestGoesLast, FoundByNumber, OneMore, RemovedByNumber, OneFewer};

/// A draw with a number above all others takes its place at the end.
pub fn the_greatest_number_goes_last()
    ensures { GreatestGoesLast }
{}

/// A draw that was queued is found by its number, and every other as before.
pub fn a_draw_is_found_by_its_number()
    ensures found { FoundByNumber }
    ensures count { OneMore }
{}

/// An acknowledgement removes one draw, and every other is found as before.
pub fn one_draw_is_removed()
    ensures found { RemovedByNumber }
    ensures count { OneFewer }
{}
