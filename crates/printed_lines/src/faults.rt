// Faults of what a client said.
ghost use Rattle.std.specs.Prelude.{◌≡◌, ◌++◌, OnOk};
ghost use Rattle.std.specs.Fmt.{decimal};
ghost use Rattle.printed_lines.specs.Faults.{why_text, frame_text, talk_text, hello_text};

use bencode_values::Why;
use hello_caps::HelloFault;
use packet_frames::FrameFault;
use packet_kinds::TalkFault;
use xp_base::{NoMemory, Text};

fn why_name(why: Why) -> &'static [u8]
    ensures { result.now ≡ why_text why }
{
    match why {
        Why::Leading => b"leading",
        Why::MinusZero => b"minus-zero",
        Why::Range => b"range",
        Why::Letter => b"letter",
        Why::Depth => b"depth",
        Why::Length => b"length",
        Why::Key => b"key",
    }
}

/// A name, a space, and a number.
pub(crate) fn write_numbered(text: &mut Text, name: &[u8], number: u64) -> Result<(), NoMemory>
    ensures { OnOk result (text.new ≡ text.old ++ name.now ++ decimal number) }
{
    text.text(name)?;
    text.number(number)
}

fn write_frame_fault(text: &mut Text, fault: FrameFault) -> Result<(), NoMemory>
    ensures { OnOk result (text.new ≡ text.old ++ frame_text fault) }
{
    match fault {
        FrameFault::Magic => text.text(b"magic"),
        FrameFault::Flags(byte) => write_numbered(text, b"flags ", u64::from(byte)),
        FrameFault::Level(level) => write_numbered(text, b"level ", u64::from(level)),
        FrameFault::Size(size) => write_numbered(text, b"size ", u64::from(size)),
        FrameFault::Chunk(index) => write_numbered(text, b"chunk ", u64::from(index)),
        FrameFault::Payload(why) => {
            text.text(b"payload ")?;
            text.text(why_name(why))
        }
        FrameFault::Cut => text.text(b"cut"),
        FrameFault::Extra => text.text(b"extra"),
    }
}

/// What is wrong with a packet, without its place. After want of memory nothing is promised of the text.
pub fn write_talk_fault(text: &mut Text, fault: TalkFault) -> Result<(), NoMemory>
    ensures { OnOk result (text.new ≡ text.old ++ talk_text fault) }
{
    match fault {
        TalkFault::Frame(fault) => write_frame_fault(text, fault),
        TalkFault::Shape(item) => write_numbered(text, b"shape ", u64::from(item)),
    }
}

/// Why a hello is refused. After want of memory nothing is promised of the text.
pub fn write_hello_fault(text: &mut Text, fault: HelloFault) -> Result<(), NoMemory>
    ensures { OnOk result (text.new ≡ text.old ++ hello_text fault) }
{
    match fault {
        HelloFault::NotHello => text.text(b"not-hello"),
        HelloFault::NoEncoding => text.text(b"no-encoding"),
        HelloFault::Uuid(length) => write_numbered(text, b"uuid ", length),
    }
}
