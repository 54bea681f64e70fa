// What reading answers.
use crate::value::Value;

/// Why a byte cannot stand where it stands.
#[derive(Clone, Copy, Debug, PartialEq, Eq)]
pub enum Why {
    /// A digit after a first `0`, in a number or a length.
    Leading,
    /// The `0` directly after `-`.
    MinusZero,
    /// The digit with which an integer leaves the range of `i64`.
    Range,
    /// Any other byte that cannot stand there.
    Letter,
    /// The `l` or `d` that would open depth 33.
    Depth,
    /// The digit with which a length exceeds its limit.
    Length,
    /// An `l` or `d` in a key's place.
    Key,
}

/// What bytes begin with.
#[derive(Debug, Drop)]
pub enum Read {
    /// A value, and how many bytes spell it.
    Whole(Value, usize),
    /// A part of a spelling, and nothing else.
    Short,
    /// No spelling, from the byte at this place on.
    Bad(usize, Why),
    NoMemory,
}
