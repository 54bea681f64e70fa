//! What one attached client shows and is owed: each of its windows is the model's, whatever happens to it.
#![tactic(auto)]

mod keeping;
mod numbering;
mod owing;

pub use keeping::{
    a_client_that_attaches_is_told, each_paint_keeps_what_is_told, each_write_keeps_what_is_told,
    only_opened_windows_are_shown, what_a_client_says_keeps_what_is_told,
    what_is_drawn_keeps_what_is_told, what_waits_lays_out_the_desktop,
};
pub use numbering::{
    a_window_begins_numbered, each_delivery_keeps_the_numbering, each_paint_keeps_the_numbering,
};
pub use owing::{
    attaching_and_drawing_owe_so, each_delivery_changes_owed_so, each_differing_pixel_is_owed,
    each_paint_changes_owed_so,
};
