// Scripts read from text.
ghost use Rattle.first_script.specs.Reading.{script_of, Gives, Reads};

use crate::fault::{ReadError, ScriptFault, Why};
use crate::line::Line;
use crate::reader::Reader;
use crate::reading::ScriptRead;
use crate::script::Script;
use crate::text::first_line;
use std::alloc::Global;

/// How many bytes a text may have.
const LIMIT: usize = 65_536;

/// The script that a text is. A fault is that of the first line that is not of the three forms
/// `open WID X Y W H`, `fill WID X Y W H C` and `peer exact`, or that may not stand after the lines
/// before it; its line is 0 where the text has more than 65,536 bytes.
pub fn read_script(alloc: Global, text: &[u8]) -> ScriptRead
    ensures { Reads result (script_of text.now) }
{
    match read_lines(alloc, text) {
        Ok(lines) => ScriptRead::Valid(Script::new(lines)),
        Err(ReadError::Line(line)) => ScriptRead::Fault(ScriptFault {
            line,
            why: Why::Unbuilt,
        }),
        Err(ReadError::Memory) => ScriptRead::NoMemory,
    }
}

#[tactic(auto, unfolding(crate::specs::Reading::script_of))]
fn read_lines(alloc: Global, text: &[u8]) -> Result<Vec<Line>, ReadError>
    ensures { Gives (λ lines. lines.items) result (script_of text.now) }
{
    if text.len() > LIMIT {
        return Err(ReadError::Line(0));
    }
    let mut reader = Reader::new(alloc);
    let mut rest = text;
    while !rest.is_empty() {
        let (line, after) = first_line(rest);
        reader.take(alloc, line)?;
        rest = after;
    }
    Ok(reader.into_vec())
}
