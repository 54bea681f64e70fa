// That the types here may move between threads.
use crate::capture::Capture;
use crate::lists::{Bytes, Pixels, Rects};
use crate::mem_clock::MemClock;
use crate::mem_sink::MemSink;
use crate::mem_source::MemSource;
use crate::real_clock::RealClock;
use crate::step_clock::StepClock;
use crate::text::Text;
use std::time;

/// A call at a type shows that values of the type may move between threads. It does nothing.
pub fn moves_between_threads<T: Send>() {}

/// Shows it of the types here; of the real clock where it is so of what it asks the system by.
pub fn base_types_move<R: time::Clock + Drop + Send>() {
    moves_between_threads::<Bytes>();
    moves_between_threads::<Pixels>();
    moves_between_threads::<Rects>();
    moves_between_threads::<Capture>();
    moves_between_threads::<Text>();
    moves_between_threads::<MemSource>();
    moves_between_threads::<MemSink>();
    moves_between_threads::<MemClock>();
    moves_between_threads::<StepClock>();
    moves_between_threads::<RealClock<R>>();
}
