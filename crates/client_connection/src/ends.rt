// How connections end.
ghost use Rattle.std.specs.Prelude.{◌≡◌};

/// How a connection ended.
#[derive(Clone, Copy, Debug, PartialEq, Eq)]
pub enum End {
    /// It shows exactly the last windows, and the last read found nothing more that it said.
    Settled,
    /// A read or a write of it failed, a read met its end, 1,000 writes in a row took nothing, or it said
    /// what is not built yet or no whole hello.
    Unbuilt,
    /// There was no memory for it, or no number for a further draw.
    Short,
    /// It was open when the run stopped.
    Unended,
}

/// Why a connection is dropped before its time.
#[derive(Clone, Copy, Debug, PartialEq, Eq)]
pub enum Trouble {
    /// The client said what is not built yet.
    Unbuilt,
    NoMemory,
}

impl Trouble {
    /// The end that it comes to.
    pub fn end(self) -> End
        ensures unbuilt { self ≡ Trouble.Unbuilt → result ≡ End.Unbuilt }
        ensures short { self ≡ Trouble.NoMemory → result ≡ End.Short }
    {
        match self {
            Trouble::Unbuilt => End::Unbuilt,
            Trouble::NoMemory => End::Short,
        }
    }
}
