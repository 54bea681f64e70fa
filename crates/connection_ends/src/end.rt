// How a connection ended.
ghost use Rattle.std.specs.Prelude.{◌≡◌};
ghost use Rattle.connection_ends.specs.Causes.{end_of};

use client_talk::Ending;
use hello_caps::HelloFault;
use packet_kinds::TalkFault;
use xp_base::Conn;

/// How a connection ended. The first cause that arises decides.
#[derive(Clone, Copy, Debug, PartialEq, Eq)]
pub enum End {
    /// It shows exactly the last windows; the last read of it found nothing, and nothing was sent after that.
    Settled,
    /// Behind an accepted hello it said that it leaves, or a read met the end of what it sends.
    Left,
    /// Its first packet is no hello that is accepted.
    Refused(HelloFault),
    /// The bytes that it gave have their first fault at this place.
    Broken(u64, TalkFault),
    /// The hello of a later connection, this one, had its uuid.
    TakenOver(Conn),
    /// A read or a write failed.
    LinkFault,
    /// While it was settled, 1,000 writes in a row took nothing.
    Stalled,
    /// While it was settled, it gave 4,194,304 bytes or more.
    Flooded,
    /// While it was settled, a read had to wait though it had given no whole packet.
    Silent,
    /// There was no memory for it.
    Short,
    /// It was open when the run stopped.
    Unended,
}

impl End {
    /// The end of a connection whose talk ended so.
    pub fn of_talk(ending: Ending) -> End
        ensures { result ≡ end_of ending }
    {
        match ending {
            Ending::Left => End::Left,
            Ending::Refused(fault) => End::Refused(fault),
            Ending::Broken(place, fault) => End::Broken(place, fault),
        }
    }
}
