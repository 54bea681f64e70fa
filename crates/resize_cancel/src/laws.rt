// What giving back and a resize come to in the model's window, each law the clause of a function that at most cites others.
ghost use Rattle.resize_cancel.specs.Laws.{ReliefsAreJobs, GivenBackIsPending, CarriedIsPending, CarriedArePoints};

use damage_batch::damage_is_pending;
use delivery_model::points_are_their_tests;
use rect_regions::Points;

/// The model's jobs relieve what the jobs in hand relieve.
pub fn jobs_relieve_as_the_models<R: Points>()
    ensures { ReliefsAreJobs R.has }
{
    points_are_their_tests();
}

/// What was given back is pending in the model's window after it.
pub fn giving_back_is_damage<R: Points>()
    ensures { GivenBackIsPending R.has }
{
    points_are_their_tests();
    damage_is_pending::<R>();
}

/// What was carried over is pending in the model's window after a resize.
pub fn a_resize_carries_over<R: Points>()
    ensures batch { CarriedIsPending R.has }
    ensures points { CarriedArePoints R.has }
{
    points_are_their_tests();
    damage_is_pending::<R>();
}
