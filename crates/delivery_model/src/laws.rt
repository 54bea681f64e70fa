// What is true of every window of every client.
ghost use Rattle.std.specs.Prelude.{◌≡◌, ℕ, []};
ghost use Rattle.delivery_model.specs.Window.{Window};
ghost use Rattle.delivery_model.specs.Events.{Close, changed, given_back, resized};
ghost use Rattle.delivery_model.specs.Numbers.{IsGone};
ghost use Rattle.delivery_model.specs.Laws.{EventsKeepTheForm, RunsKeepTheForm, WholeRunsHaveTheForm, FormGivesInvariant, UnowedIsShown};
ghost use Rattle.delivery_model.specs.Laws.{EventsChangeOwed, StartOwesAll, GivingBackMovesReliefs, ResizePends, ResizeClipsLossy, ResizeOwes};
ghost use Rattle.delivery_model.specs.Laws.{JobWasInHand, GoneStaysGone, LateWhereGone, EventsKeepNumbering, NumberingWaits, RisingIsDistinct};
ghost use Rattle.delivery_model.specs.Laws.{FirstJobLeaves, FirstJobStays, NoJobLeaves, LeavingTakesNumbers};
ghost use Rattle.delivery_model.specs.Laws.{PointsHave, PointsAreAlike, EmptyHasNone, NoneIsEmpty, GridNumbers, GridsAreAlike};

/// Every event keeps the inductive form; the first event of a window, its start, makes it.
pub fn every_event_keeps_the_form()
    ensures { EventsKeepTheForm }
{}

/// So does every list of events, from no window on.
pub fn every_run_keeps_the_form()
    ensures run { RunsKeepTheForm }
    ensures whole { WholeRunsHaveTheForm }
{}

/// The inductive form gives the invariant: jobs lie in the window, shown unless owed, newest covering draws are
/// current, nothing is owed only in front of a window packet, lossy jobs owe their rectangle.
pub fn form_gives_invariant()
    ensures { FormGivesInvariant }
{}

/// After every list of events a point that is not owed has the desktop's number at the client.
pub fn unowed_is_shown()
    ensures { UnowedIsShown }
{}

/// What is owed after an event, exactly.
pub fn every_event_changes_owed_as_stated()
    ensures { EventsChangeOwed }
{}

/// Attach and open owe the whole window.
pub fn start_owes_all()
    ensures { StartOwesAll }
{}

/// Giving back makes pending the union of pending and the reliefs of jobs in hand, and leaves no job.
pub fn giving_back_moves_reliefs()
    ensures jobs { (now : ℕ) (w : Window) → (given_back now w).jobs ≡ [] }
    ensures pending { GivingBackMovesReliefs }
{}

/// A resize leaves no job; pending are the points of the new window that were pending, in the relief of a job or not in
/// the old window; of the lossy points those in both sizes are left. Owed are the points of the new window that were
/// owed, and those that are new.
pub fn resize_keeps_the_overlap()
    ensures jobs { (w h now : ℕ) (old : Window) → (resized w h now old).jobs ≡ [] }
    ensures lossy { ResizeClipsLossy }
    ensures pending { ResizePends }
    ensures owed { ResizeOwes }
{}

/// Jobs leave the jobs in hand one after another, from the first, while it has its result; each takes a
/// sequence number.
pub fn jobs_leave_one_by_one()
    ensures leaves { FirstJobLeaves }
    ensures stays { FirstJobStays }
    ensures none { NoJobLeaves }
    ensures numbers { LeavingTakesNumbers }
{}

/// A job in hand after an event, with a number below the next one before it, was in hand with the same capture.
pub fn job_in_hand_was_in_hand()
    ensures { JobWasInHand }
{}

/// A number that no job in hand has, below the next one, is never again that of a job in hand.
pub fn cancelled_numbers_never_come_back()
    ensures { GoneStaysGone }
{}

/// A result whose number no job in hand has is late.
pub fn late_where_gone()
    ensures { LateWhereGone }
{}

/// Giving back, a resize and a close leave no job in hand.
pub fn closing_leaves_no_job()
    ensures given_back { (now k : ℕ) (w : Window) → IsGone (Some (given_back now w)) k }
    ensures resized { (w h now k : ℕ) (old : Window) → IsGone (Some (resized w h now old)) k }
    ensures closed { (lossy_shows : ℕ → ℕ) (k : ℕ) (w : Window) → IsGone (changed lossy_shows Close w) k }
{}

/// Job numbers in hand are distinct, rising and below the next one; so are the sequence numbers of waiting and of
/// unacknowledged draws; the next of these and the jobs in hand are at most the next job number. Every event keeps it.
pub fn every_event_keeps_the_numbering()
    ensures { EventsKeepNumbering }
{}

/// The numbering stands while other windows take numbers.
pub fn numbering_waits()
    ensures { NumberingWaits }
{}

/// Numbers that rise are distinct.
pub fn rising_is_distinct()
    ensures { RisingIsDistinct }
{}

/// A set of points that was made point by point; two of one size that agree in each point are one.
pub fn points_are_their_tests()
    ensures point { PointsHave }
    ensures alike { PointsAreAlike }
{}

/// A set that was made point by point is empty exactly where it has no point.
pub fn empty_sets_have_no_point()
    ensures empty { EmptyHasNone }
    ensures none { NoneIsEmpty }
{}

/// A grid that was made point by point; two of one size that agree in each point are one.
pub fn grids_are_their_numbers()
    ensures point { GridNumbers }
    ensures alike { GridsAreAlike }
{}
