// The bytes that the grammar knows.
ghost use Rattle.std.specs.Prelude.{◌≡◌};
ghost use Rattle.bencode_values.specs.Marks.{mark_of};

/// What a byte is outside a byte string.
#[derive(Clone, Copy, Debug, PartialEq, Eq)]
pub(crate) enum Mark {
    Int,
    List,
    Dict,
    End,
    Colon,
    Minus,
    Digit(u8),
    Other,
}

/// What this byte is.
pub(crate) fn mark_at(byte: u8) -> Mark
    ensures { result ≡ mark_of byte }
{
    match byte {
        b'i' => Mark::Int,
        b'l' => Mark::List,
        b'd' => Mark::Dict,
        b'e' => Mark::End,
        b':' => Mark::Colon,
        b'-' => Mark::Minus,
        b'0'..=b'9' => Mark::Digit(byte - b'0'),
        _ => Mark::Other,
    }
}
