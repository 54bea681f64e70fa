// Why a value is no packet of its kind.
use packet_frames::FrameFault;
use thiserror::Error;
use xp_base::NoMemory;

/// Why a value is not read as a packet.
#[derive(Clone, Copy, Debug, PartialEq, Eq, Error)]
pub enum KindFault {
    /// The first item that is missing or does not fit, by its place in the list; 0 where the value is no list,
    /// or its first item is no byte string.
    #[error("item {0} does not fit")]
    Shape(u8),
    #[error("out of memory")]
    NoMemory,
}

impl From<NoMemory> for KindFault {
    ghost use Rattle.std.specs.Prelude.{◌≡◌};
    ghost use Rattle.packet_kinds.specs.declared.fault.KindFault.TheVariants as F;

    ghost from_gives = { λ _ fault. fault ≡ F.NoMemory };

    fn from(_error: NoMemory) -> KindFault {
        KindFault::NoMemory
    }
}

/// Why what a client said goes no further.
#[derive(Clone, Copy, Debug, PartialEq, Eq)]
pub enum TalkFault {
    /// Its bytes do not go on as packets do.
    Frame(FrameFault),
    /// The first item of a packet that is missing or does not fit, by its place in the list.
    Shape(u8),
}
