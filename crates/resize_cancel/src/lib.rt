//! The jobs in hand of one window, cancelled: what they would have repaired is damage again.
#![tactic(auto)]

mod cancelling;
mod carrying;
mod laws;

pub use cancelling::{carried, give_back, put_carried};
pub use carrying::Carried;
pub use laws::{a_resize_carries_over, giving_back_is_damage, jobs_relieve_as_the_models};
