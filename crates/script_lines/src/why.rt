// Why a text is no script.
ghost use Rattle.std.specs.Prelude.{◌≡◌};
ghost use Rattle.script_lines.specs.Whys.{why_name};

/// Why a line is no line of a script. Where a line has several faults, the first of these is its fault.
#[derive(Clone, Copy, Debug, PartialEq, Eq)]
pub enum Why {
    /// The line has the number 100,001.
    Lines,
    /// The first word names no line, or the word after `peer` no peer.
    Word,
    /// There are too many words or too few.
    Count,
    /// A word is not spelled as a number, a colour, bytes in hexadecimal or a uuid where one stands.
    Number,
    /// A number is outside its range.
    Range,
    /// A paint line other than `open` names no open window.
    NoWindow,
    /// A line names a peer that no line before it ordered.
    NoPeer,
    /// A window's number was opened before.
    Reused,
    /// A rectangle is not within its window.
    Outside,
    /// There would be 33 windows.
    Windows,
    /// There would be more than 4,194,304 pixels over all windows.
    Pixels,
    /// The text has more than 33,554,432 bytes. It has no line that is at fault.
    Bytes,
}

impl Why {
    /// The word that is printed for it.
    pub fn name(self) -> &'static str
        ensures { result.now ≡ why_name self }
    {
        match self {
            Why::Lines => "lines",
            Why::Word => "word",
            Why::Count => "count",
            Why::Number => "number",
            Why::Range => "range",
            Why::NoWindow => "no-window",
            Why::NoPeer => "no-peer",
            Why::Reused => "reused",
            Why::Outside => "outside",
            Why::Windows => "windows",
            Why::Pixels => "pixels",
            Why::Bytes => "bytes",
        }
    }
}
