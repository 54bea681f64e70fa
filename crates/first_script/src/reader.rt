// A script, line by line.
ghost use Rattle.std.specs.Prelude.{◌≡◌, ◌+◌, ◌<◌, ◌^◌, ◌++◌, ◌∷◌, [], length, OnOk, OnErr};
ghost use Rattle.first_script.specs.Reading.{fits, opening_of, is_peer};

use crate::fault::ReadError;
use crate::forms::line_of;
use crate::line::Line;
use crate::opening::Opening;
use crate::paint::Paint;
use std::alloc::Global;
use std::marker::Model;
use xp_base::NoMemory;

/// How many pixels a window may have.
const MOST_PIXELS: u64 = 4_194_304;

/// The lines so far, with the window that they open, and whether one of them is for a peer.
#[derive(Drop)]
pub struct Reader {
    lines: Vec<Line>,
    opening: Option<Opening>,
    has_peer: bool,
}

impl Model for Reader {
    ghost use Rattle.std.specs.Prelude.{List, ◌≡◌};
    ghost use Rattle.first_script.specs.declared.line.Line.{Line};

    ghost Value = { List Line };

    ghost use Rattle.std.specs.List.{list_any};
    ghost use Rattle.first_script.specs.Reading.{opening_in, is_peer};

    ghost view = { λ r. r.lines.items };

    ghost invariant = { λ r. (r.opening ≡ opening_in r.lines.items) × (r.has_peer ≡ list_any is_peer r.lines.items) };
}

impl Reader {
    ghost use Rattle.first_script.specs.Reading.{Takes, Gives, next_line};

    pub fn new(alloc: Global) -> Reader
        ensures { result ≡ [] }
    {
        Reader {
            lines: Vec::new(alloc),
            opening: None,
            has_peer: false,
        }
    }

    pub fn into_vec(self) -> Vec<Line>
        ensures { result.items ≡ self }
    {
        self.lines
    }

    /// Reads the next line. An `Err` changes nothing.
    pub fn take(&mut self, alloc: Global, text: &[u8]) -> Result<(), ReadError>
        requires { length self.old + 1 < 2 ^ 32 }
        ensures { Takes self.old text.now result self.new }
    {
        let line = self.next_line(alloc, text)?;
        self.push(line)?;
        Ok(())
    }

    /// The line that a text is, if it may stand after these.
    #[tactic(auto, using(crate::proofs::Steps::next_none, crate::proofs::Steps::next_refused, crate::proofs::Steps::next_taken))]
    fn next_line(&self, alloc: Global, text: &[u8]) -> Result<Line, ReadError>
        requires { length self.now + 1 < 2 ^ 32 }
        ensures { Gives (λ line. line) result (next_line self.now text.now) }
    {
        let number = self.lines.len() as u32 + 1;
        let Some(line) = line_of(alloc, text) else {
            return Err(ReadError::Line(number));
        };
        if !fits(self.opening, self.has_peer, &line) {
            return Err(ReadError::Line(number));
        }
        Ok(line)
    }

    #[tactic(auto, using(crate::proofs::Steps::opening_push, crate::proofs::Steps::peer_push))]
    fn push(&mut self, line: Line) -> Result<(), NoMemory>
        ensures ok { OnOk result (self.new ≡ self.old ++ line ∷ []) }
        ensures err { OnErr result (self.new ≡ self.old) }
    {
        let opening = opening_of(&line);
        let is_peer = is_peer(&line);
        self.lines.push(line)?;
        self.opening = self.opening.or(opening);
        self.has_peer = self.has_peer || is_peer;
        Ok(())
    }
}

/// The window that a line opens.
fn opening_of(line: &Line) -> Option<Opening>
    ensures { result ≡ opening_of line.now }
{
    match line {
        Line::Paint(Paint::Open { wid, w, h, .. }) => Some(Opening {
            wid: *wid,
            w: *w,
            h: *h,
        }),
        _ => None,
    }
}

fn is_peer(line: &Line) -> bool
    ensures { result ≡ is_peer line.now }
{
    matches!(line, Line::Peer(_))
}

/// Whether a line may stand where this window was opened, and a peer came or not.
fn fits(opening: Option<Opening>, has_peer: bool, line: &Line) -> bool
    ensures { result ≡ fits opening has_peer line.now }
{
    match line {
        Line::Paint(Paint::Open { w, h, .. }) => {
            opening.is_none() && u64::from(*w) * u64::from(*h) <= MOST_PIXELS
        }
        Line::Paint(
            Paint::Fill {
                wid,
                x,
                y,
                w,
                h,
                ..
            },
        ) => match opening {
            None => false,
            Some(window) => {
                window.wid.get() == wid.get()
                    && u64::from(*x) + u64::from(*w) <= u64::from(window.w)
                    && u64::from(*y) + u64::from(*h) <= u64::from(window.h)
            }
        },
        Line::Peer(_) => !has_peer,
    }
}
