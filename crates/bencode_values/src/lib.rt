//! Bencode: values, their one spelling, the reader and the writer.
#![tactic(auto)]

mod laws;
mod lookups;
mod mark;
mod number;
mod read;
mod reader;
mod reading;
mod stop;
mod string;
mod value;
mod writer;

pub use laws::{limits_by_form, no_spelling_begins_another, one_answer, spelling_by_form};
pub use lookups::lookup;
pub use read::read_value;
pub use reading::{Read, Why};
pub use value::{Items, Key, Pair, Pairs, Value};
pub use writer::write_value;
