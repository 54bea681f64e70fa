//! One client's view of one window. Each call is an event of the model of delivering a window to a client.
#![tactic(auto)]

mod acting;
mod capturing;
mod damaging;
mod drafts;
mod filing;
mod laws;
mod owed;
mod resizing;
mod source;
mod standing;
mod taking;

pub use capturing::{Caught, Mode};
pub use laws::{calls_are_the_models_events, calls_keep_the_form_and_what_is_owed};
pub use resizing::Resizing;
pub use source::WindowSource;
