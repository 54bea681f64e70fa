// A script, line by line.
ghost use Rattle.std.specs.Prelude.{◌≡◌, ◌++◌, ◌∷◌, ◌<◌, [], None, length, IfOk};
ghost use Rattle.script_lines.specs.Ranges.{IsLine};
ghost use Rattle.paint_script.specs.Faults.{fault_after};
ghost use Rattle.paint_script.specs.Text.{Takes};

use crate::changes::{is_join, is_marked, mark, no_marks, windows_with};
use crate::faults::{paint_fault, peer_fault};
use crate::opening::Opening;
use crate::script::Script;
use script_lines::{Line, LineError, Why, lines_in_range, read_line};
use std::alloc::Global;
use std::marker::Model;
use xp_base::NoMemory;

/// How many lines a text may have.
const MOST_LINES: usize = 100_000;

/// How many numbers a window's number may be one of, 0 among them.
const NUMBERS: usize = 65_536;

/// The lines so far, and what decides which line may follow: the open windows, a mark at each number that
/// was opened, and how many peers have joined.
#[derive(Drop)]
pub struct Reader {
    lines: Vec<Line>,
    windows: Vec<Opening>,
    marks: Vec<bool>,
    peers: usize,
}

impl Model for Reader {
    ghost use Rattle.std.specs.Prelude.{List};
    ghost use Rattle.script_lines.specs.declared.line.Line.{Line};

    ghost Value = { List Line };

    ghost use Rattle.paint_script.specs.Kept.{IsKept};

    ghost view = { λ r. r.lines.items };

    ghost invariant = { λ r. IsKept r.lines.items r.windows.items r.marks.items r.peers };
}

impl Reader {
    pub fn new(alloc: Global) -> Result<Reader, NoMemory>
        ensures { IfOk result (λ reader. reader ≡ []) }
    {
        Ok(Reader {
            lines: Vec::new(alloc),
            windows: Vec::new(alloc),
            marks: no_marks(alloc, NUMBERS)?,
            peers: 0,
        })
    }

    pub fn into_script(self) -> Script
        ensures { result ≡ self }
    {
        Script::of_lines(self.lines)
    }

    /// The fault of a line after these.
    fn fault(&self, line: &Line) -> Option<Why>
        ensures { result ≡ fault_after self.now line.now }
    {
        match line {
            Line::Paint(paint) => {
                let again = is_marked(self.marks.as_slice(), paint);
                paint_fault(self.windows.as_slice(), again, paint)
            }
            Line::Peer(order) => peer_fault(self.peers, order),
            Line::Plan(_) => None,
        }
    }

    /// These lines and one that may follow.
    pub fn push(self, line: Line) -> Result<Reader, NoMemory>
        requires range { IsLine line }
        requires faultless { fault_after self line ≡ None }
        ensures { IfOk result (λ reader. reader ≡ self ++ line ∷ []) }
    {
        let Reader {
            mut lines,
            mut windows,
            mut marks,
            mut peers,
        } = self;
        match &line {
            Line::Paint(paint) => {
                windows = windows_with(windows, paint)?;
                mark(&mut marks, paint);
            }
            Line::Peer(order) => {
                if is_join(order) {
                    peers += 1;
                }
            }
            Line::Plan(_) => {}
        }
        lines.push(line)?;
        Ok(Reader {
            lines,
            windows,
            marks,
            peers,
        })
    }

    /// These lines and the one that the text at this place is, if it is one; the place is counted from 0.
    pub fn take(self, alloc: Global, place: usize, text: &[u8]) -> Result<Reader, LineError>
        ensures { Takes self place text.now result }
    {
        if place >= MOST_LINES {
            return Err(LineError::Fault(Why::Lines));
        }
        lines_in_range();
        let Some(line) = read_line(alloc, text)? else {
            return Ok(self);
        };
        if let Some(why) = self.fault(&line) {
            return Err(LineError::Fault(why));
        }
        Ok(self.push(line)?)
    }
}
