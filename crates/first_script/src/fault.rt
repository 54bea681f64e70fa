// What is wrong with a text that is no script.
ghost use Rattle.std.specs.Prelude.{◌≡◌};
ghost use Rattle.first_script.specs.declared.fault.ReadError.TheVariants.{Memory};

use xp_base::NoMemory;

/// Why a line is no script line.
#[derive(Clone, Copy, Debug, PartialEq, Eq)]
pub enum Why {
    /// It is not of a form that is read so far, or may not stand after the lines before it.
    Unbuilt,
}

/// The first line that is wrong, counted from 1, or 0 where the text is longer than a script may be.
#[derive(Clone, Copy, Debug, PartialEq, Eq)]
pub struct ScriptFault {
    pub line: u32,
    pub why: Why,
}

/// Want of memory, or the number of the first wrong line.
#[derive(Clone, Copy, Debug)]
pub enum ReadError {
    Memory,
    Line(u32),
}

impl From<NoMemory> for ReadError {
    ghost from_gives = { λ _ e. e ≡ Memory };

    fn from(_error: NoMemory) -> ReadError {
        ReadError::Memory
    }
}
