//! One window of one client, from the first damage to the last byte written: what happens to it, what
//! the client is owed, and the laws that make "shown unless owed" stand after every list of events.
#![tactic(auto)]

mod laws;

pub use laws::{
    cancelled_numbers_never_come_back, closing_leaves_no_job, empty_sets_have_no_point,
    every_event_changes_owed_as_stated, every_event_keeps_the_form,
    every_event_keeps_the_numbering, every_run_keeps_the_form, form_gives_invariant,
    giving_back_moves_reliefs, grids_are_their_numbers, job_in_hand_was_in_hand,
    jobs_leave_one_by_one, late_where_gone, numbering_waits, points_are_their_tests,
    resize_keeps_the_overlap, rising_is_distinct, start_owes_all, unowed_is_shown,
};
