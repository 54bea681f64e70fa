// What is wrong with a text that is no script.
ghost use Rattle.std.specs.Prelude.{◌≡◌};
ghost use Rattle.paint_script.specs.declared.fault.ReadError.TheVariants.{Memory};

use script_lines::Why;
use xp_base::NoMemory;

/// The number of the first line with a fault, counted from 1, and its fault; the line is 0 where the text
/// is longer than a script may be.
#[derive(Clone, Copy, Debug, PartialEq, Eq)]
pub struct ScriptFault {
    pub line: u32,
    pub why: Why,
}

/// Want of memory, or the first fault.
#[derive(Clone, Copy, Debug)]
pub enum ReadError {
    Memory,
    Fault(ScriptFault),
}

impl From<NoMemory> for ReadError {
    ghost from_gives = { λ _ e. e ≡ Memory };

    fn from(_error: NoMemory) -> ReadError {
        ReadError::Memory
    }
}
