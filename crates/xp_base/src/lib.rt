//! What every layer speaks of: pixels, windows' and connections' numbers, rectangles, captures, and
//! the traits of input, output and time.
#![tactic(auto)]

mod capture;
mod clock;
mod coding;
mod due;
mod laws;
mod lists;
mod mem_clock;
mod mem_sink;
mod mem_source;
mod memory;
mod moves;
mod numbers;
mod pixel;
mod real_clock;
mod rect;
mod sink;
mod source;
mod standard;
mod step_clock;
mod text;

pub use capture::Capture;
pub use clock::Clock;
pub use coding::Coding;
pub use due::Due;
pub use laws::{keyed_finds, keyed_keeps, keyed_orders, keyed_places};
pub use lists::{Bytes, Pixels, Rects};
pub use mem_clock::MemClock;
pub use mem_sink::MemSink;
pub use mem_source::MemSource;
pub use memory::NoMemory;
pub use moves::{base_types_move, moves_between_threads};
pub use numbers::{Conn, JobId, Wid};
pub use pixel::Pixel;
pub use real_clock::RealClock;
pub use rect::Rect;
pub use sink::{Put, Sink};
pub use source::{Get, Source};
pub use standard::{ReaderSource, WriterSink};
pub use step_clock::StepClock;
pub use text::Text;
