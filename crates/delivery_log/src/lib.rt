//! The log of one window of one client: what a reader of the log alone calls stale is what the client is
//! owed, and every quiet turn brings the window nearer to rest.
#![tactic(auto)]

mod laws;

pub use laws::{
    agreement_waits, clients_rest, every_event_keeps_the_agreement, every_event_keeps_the_times,
    owed_is_stale, parts_of_a_turn, parts_of_a_turn_come_nearer, quiet_turns_rest,
    rest_is_the_least_of_its_table, results_in_order_draw_a_window_out, runs_owe_what_is_stale,
};
