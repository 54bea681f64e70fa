//! Hello: what a client's first packet says of it, and what the server answers.
#![tactic(auto)]

mod caps;
mod client;
mod forms;
mod laws;
mod refusal;
mod server;

pub use caps::{Caps, HelloFault, HelloRead};
pub use client::read_hello;
pub use laws::{a_hello_by_form, capabilities_by_key, the_last_pair_counts, the_server_spells};
pub use refusal::goodbye;
pub use server::server_hello;
