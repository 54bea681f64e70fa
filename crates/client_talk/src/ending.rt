// Why a client's talk ends.
use hello_caps::HelloFault;
use packet_kinds::TalkFault;

/// What ends a client's talk, by the bytes that it gave. The first of them that arises decides.
#[derive(Clone, Copy, Debug, PartialEq, Eq)]
pub enum Ending {
    /// Behind an accepted hello it said that it leaves.
    Left,
    /// Its first packet is no hello that is accepted.
    Refused(HelloFault),
    /// Its bytes have their first fault at this place.
    Broken(u64, TalkFault),
}
