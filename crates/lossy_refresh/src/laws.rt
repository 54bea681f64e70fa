// What the calls on lossy points come to in the model's window, each law the clause of a function that at most cites others.
ghost use Rattle.lossy_refresh.specs.Laws.{StartIsExact, QueuedIsLossy, ReliefIsJoined, KeptIsResized, DueIsTold, LastDecides, LastSince};

use delivery_model::{empty_sets_have_no_point, points_are_their_tests};
use rect_regions::Points;

/// A window starts with nothing lossy.
pub fn a_start_is_exact<R: Points>()
    ensures { StartIsExact R.has }
{
    points_are_their_tests();
    empty_sets_have_no_point();
}

/// After a job's draw was queued the window's lossy points are the model's, and so is the draw's relief
/// with the points that stopped being lossy.
pub fn draws_are_the_models<R: Points>()
    ensures lossy { QueuedIsLossy R.has }
    ensures relief { ReliefIsJoined R.has }
{
    points_are_their_tests();
    empty_sets_have_no_point();
}

/// A resize keeps the lossy points that lie in the new size, and since when they are lossy.
pub fn a_resize_keeps_what_is_in_it<R: Points>()
    ensures { KeptIsResized R.has }
{
    points_are_their_tests();
    empty_sets_have_no_point();
}

/// What is due is so in the model.
pub fn due_is_told<R: Points>()
    ensures { DueIsTold R.has }
{
    points_are_their_tests();
    empty_sets_have_no_point();
}

/// The last queued draw over a point decides whether it is lossy, and the last lossy draw since when.
pub fn the_last_draw_decides<R: Points>()
    ensures points { LastDecides R.has }
    ensures since { LastSince R.has }
{}
