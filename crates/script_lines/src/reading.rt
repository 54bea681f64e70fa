// What stands in the way of reading a line.
ghost use Rattle.std.specs.Prelude.{◌≡◌};
ghost use Rattle.script_lines.specs.declared.reading.LineError.TheVariants.{Memory, Fault};

use crate::why::Why;
use std::alloc::AllocError;
use xp_base::NoMemory;

/// Want of memory, or the fault of the line.
#[derive(Clone, Copy, Debug)]
pub enum LineError {
    Memory,
    Fault(Why),
}

impl From<NoMemory> for LineError {
    ghost from_gives = { λ _ e. e ≡ Memory };

    fn from(_error: NoMemory) -> LineError {
        LineError::Memory
    }
}

impl From<AllocError> for LineError {
    ghost from_gives = { λ _ e. e ≡ Memory };

    fn from(_error: AllocError) -> LineError {
        LineError::Memory
    }
}

impl From<Why> for LineError {
    ghost from_gives = { λ why e. e ≡ Fault why };

    fn from(why: Why) -> LineError {
        LineError::Fault(why)
    }
}
