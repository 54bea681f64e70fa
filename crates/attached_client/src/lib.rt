//! A client whose hello was accepted: the sources of its windows, and the packets that wait to be written to it.
#![tactic(auto)]

mod acting;
mod capturing;
mod carrying;
mod change;
mod change_laws;
mod client;
mod drawing_laws;
mod laws;
mod packets;
mod preparing;
mod sending;

pub use change::{Change, Prepared};
pub use change_laws::{
    a_change_changes_owed_so, a_change_keeps_a_client, a_change_keeps_marks,
    a_change_keeps_the_numbering,
};
pub use client::Attached;
pub use drawing_laws::{captures_and_results_are_drawn, drawing_keeps_a_client};
pub use laws::{a_new_client_attaches, acting_keeps_what_is_told, messages_mark_and_owe_so};
