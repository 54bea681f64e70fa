//! One window of one client, played plainly: a slow program, a method for each event of the model of
//! delivering one window to one client, which makes exactly the window that the event makes.
#![tactic(auto)]

mod captures;
mod copies;
mod draws;
mod parts;
mod replies;
mod selections;
mod window;

pub use captures::PlainCapture;
pub use parts::{PlainDraw, PlainJob, PlainPacket, PlainPlanned, PlainSent};
pub use replies::{PlainFiling, PlainRefusal};
pub use selections::shown;
pub use window::PlainWindow;

#[cfg(test)]
mod tests;
