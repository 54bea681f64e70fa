// Why reading stopped before a value was whole.
use crate::reading::Why;
use std::alloc::{AllocError, AllocFailed};

#[derive(Debug, Drop)]
pub(crate) enum Stop {
    Short,
    Bad(usize, Why),
    NoMemory,
}

impl From<AllocError> for Stop {
    ghost use Rattle.std.specs.Prelude.{◌≡◌};
    ghost use Rattle.bencode_values.specs.declared.stop.Stop.TheVariants.{NoMemory};

    ghost from_gives = { λ _ e. e ≡ NoMemory };

    fn from(_error: AllocError) -> Stop {
        Stop::NoMemory
    }
}
