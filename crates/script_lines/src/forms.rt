// What the text of one line is by itself.
ghost use Rattle.script_lines.specs.Reading.{Gives};
ghost use Rattle.script_lines.specs.Text.{words_of};
ghost use Rattle.script_lines.specs.Forms.{form, of_words, text_line};

use crate::kinds::{Kind, kind_of};
use crate::line::Line;
use crate::paint_forms::paint_line;
use crate::peer_forms::peer_line;
use crate::plan_forms::plan_line;
use crate::reading::LineError;
use crate::text::{is_comment, next_word, without_return};
use crate::why::Why;
use std::alloc::Global;

fn line_of(alloc: Global, kind: Kind, words: &[u8]) -> Result<Line, LineError>
    ensures { Gives result (form kind (words_of words.now)) }
{
    match kind {
        Kind::Paint(kind) => Ok(Line::Paint(paint_line(kind, words)?)),
        Kind::Peer(kind) => Ok(Line::Peer(peer_line(alloc, kind, words)?)),
        Kind::Plan(kind) => Ok(Line::Plan(plan_line(kind, words)?)),
    }
}

fn read_words(alloc: Global, words: &[u8]) -> Result<Option<Line>, LineError>
    ensures { Gives result (of_words (words_of words.now)) }
{
    if next_word(words).is_none() {
        return Ok(None);
    }
    let Some((kind, words)) = kind_of(words) else {
        return Err(LineError::Fault(Why::Word));
    };
    Ok(Some(line_of(alloc, kind, words)?))
}

/// What the text of one line is, without the byte that ends it: no line where it has no words or its
/// first byte is `#`; else a line, or its fault, which is one of `Word`, `Count`, `Number` and `Range`.
#[tactic(auto, unfolding(crate::specs::Forms::text_line))]
pub fn read_line(alloc: Global, text: &[u8]) -> Result<Option<Line>, LineError>
    ensures { Gives result (text_line text.now) }
{
    if is_comment(text) {
        return Ok(None);
    }
    read_words(alloc, without_return(text))
}
