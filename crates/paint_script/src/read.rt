// Scripts read from text.
ghost use Rattle.std.specs.Prelude.{◌≡◌, ◌<◌, ◌^◌};
ghost use Rattle.script_lines.specs.declared.reading.LineError.{LineError};
ghost use Rattle.paint_script.specs.Text.{script_of, Gives, Reads, failed_at};

use crate::fault::{ReadError, ScriptFault};
use crate::reader::Reader;
use crate::reading::ScriptRead;
use crate::script::Script;
use script_lines::{LineError, Why, first_line};
use std::alloc::Global;

/// How many bytes a text may have.
const MOST_BYTES: usize = 33_554_432;

/// The script that a text is, or its first fault. The text is cut into lines at each byte 0x0A. A line
/// without words and a line whose first byte is `#` do nothing but are counted.
pub fn read_script(alloc: Global, text: &[u8]) -> ScriptRead
    ensures { Reads result (script_of text.now) }
{
    match read_lines(alloc, text) {
        Ok(script) => ScriptRead::Valid(script),
        Err(ReadError::Fault(fault)) => ScriptRead::Fault(fault),
        Err(ReadError::Memory) => ScriptRead::NoMemory,
    }
}

fn read_lines(alloc: Global, text: &[u8]) -> Result<Script, ReadError>
    ensures { Gives result (script_of text.now) }
{
    if text.len() > MOST_BYTES {
        return Err(ReadError::Fault(ScriptFault {
            line: 0,
            why: Why::Bytes,
        }));
    }
    let mut reader = Reader::new(alloc)?;
    let mut rest = text;
    let mut place: u32 = 0;
    while !rest.is_empty() {
        let (line, after) = first_line(rest);
        reader = match reader.take(alloc, place as usize, line) {
            Ok(reader) => reader,
            Err(error) => return Err(failed_at(error, place + 1)),
        };
        rest = after;
        place += 1;
    }
    Ok(reader.into_script())
}

/// That error at the line with this number.
fn failed_at(error: LineError, line: u32) -> ReadError
    ensures { result ≡ failed_at error line }
{
    match error {
        LineError::Memory => ReadError::Memory,
        LineError::Fault(why) => ReadError::Fault(ScriptFault { line, why }),
    }
}
