// Ends of connections.
ghost use Rattle.std.specs.Prelude.{◌≡◌, ◌++◌, OnOk, codes};
ghost use Rattle.std.specs.Fmt.{decimal};
ghost use Rattle.printed_lines.specs.Ends.{end_text};

use crate::faults::{write_hello_fault, write_numbered, write_talk_fault};
use connection_ends::End;
use packet_kinds::TalkFault;
use xp_base::{NoMemory, Text};

/// How a connection ended. After want of memory nothing is promised of the text.
pub fn write_end(text: &mut Text, end: End) -> Result<(), NoMemory>
    ensures { OnOk result (text.new ≡ text.old ++ end_text end) }
{
    match end {
        End::Settled => text.text(b"settled"),
        End::Left => text.text(b"left"),
        End::Refused(fault) => {
            text.text(b"refused ")?;
            write_hello_fault(text, fault)
        }
        End::Broken(place, fault) => write_broken(text, place, fault),
        End::TakenOver(c) => write_taken_over(text, c.0),
        End::LinkFault => text.text(b"link-fault"),
        End::Stalled => text.text(b"stalled"),
        End::Flooded => text.text(b"flooded"),
        End::Silent => text.text(b"silent"),
        End::Short => text.text(b"short"),
        End::Unended => text.text(b"unended"),
    }
}

fn write_broken(text: &mut Text, place: u64, fault: TalkFault) -> Result<(), NoMemory>
    ensures { OnOk result (text.new ≡ text.old ++ end_text (End.Broken place fault)) }
{
    text.text(b"broken ")?;
    text.number(place)?;
    text.text(b" ")?;
    write_talk_fault(text, fault)
}

fn write_taken_over(text: &mut Text, number: u32) -> Result<(), NoMemory>
    ensures { OnOk result (text.new ≡ text.old ++ codes "taken-over " ++ decimal number) }
{
    write_numbered(text, b"taken-over ", u64::from(number))
}
