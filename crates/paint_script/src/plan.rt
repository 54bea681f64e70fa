// Plan lines of a text.
ghost use Rattle.std.specs.Prelude.{◌≡◌, IfOk};
ghost use Rattle.script_lines.specs.Text.{lines_of};
ghost use Rattle.script_lines.specs.Forms.{text_line};
ghost use Rattle.paint_script.specs.Text.{is_plan, first_plan_line};

use script_lines::{Line, LineError, first_line, read_line};
use std::alloc::Global;
use xp_base::NoMemory;

/// The number of the first plan line of a text, counted from 1 over all its lines; `None` exactly where it
/// has none.
pub fn first_plan_line(alloc: Global, text: &[u8]) -> Result<Option<usize>, NoMemory>
    ensures { IfOk result (λ number. number ≡ first_plan_line text.now) }
{
    let mut rest = text;
    let mut number = 0;
    while !rest.is_empty() {
        let (line, after) = first_line(rest);
        rest = after;
        number += 1;
        if is_plan(alloc, line)? {
            return Ok(Some(number));
        }
    }
    Ok(None)
}

fn is_plan(alloc: Global, text: &[u8]) -> Result<bool, NoMemory>
    ensures { IfOk result (λ is. is ≡ is_plan (text_line text.now)) }
{
    match read_line(alloc, text) {
        Ok(Some(Line::Plan(_))) => Ok(true),
        Ok(_) | Err(LineError::Fault(_)) => Ok(false),
        Err(LineError::Memory) => Err(NoMemory),
    }
}
