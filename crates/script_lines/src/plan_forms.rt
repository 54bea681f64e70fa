// Plan lines by their words.
ghost use Rattle.std.specs.Prelude.{◌≡◌, ◌∷◌, []};
ghost use Rattle.script_lines.specs.declared.kinds.PlanKind.TheVariants as plan;
ghost use Rattle.script_lines.specs.Text.{words_of};
ghost use Rattle.script_lines.specs.Arguments.{read, Number, number_at};
ghost use Rattle.script_lines.specs.Places.{no_value};
ghost use Rattle.script_lines.specs.Forms.{plan_form, client, wid};

use crate::arguments::{both, client_in, long_of, next, number_in, only, wid_in};
use crate::kinds::PlanKind;
use crate::plan::PlanLine;
use crate::why::Why;
use xp_base::Wid;

/// No words.
pub fn none(words: &[u8]) -> Result<(), Why>
    ensures { result ≡ read [] no_value (words_of words.now) }
{
    only(Ok(()), words)
}

/// One number in this range.
pub fn one_number(words: &[u8], low: u32, high: u32) -> Result<u32, Why>
    ensures { result ≡ read (Number low high ∷ []) (number_at 0) (words_of words.now) }
{
    let (n, words) = number_in(words, low, high);
    only(n, words)
}

/// A client and a window.
pub fn client_and_window(words: &[u8]) -> Result<(u32, Wid), Why>
    ensures { result ≡ read (client ∷ wid ∷ []) (λ ws. (number_at 0 ws, number_at 1 ws)) (words_of words.now) }
{
    let (k, words) = client_in(words);
    let (wid, words) = wid_in(words);
    both(k, only(wid, words))
}

fn finish(words: &[u8]) -> Result<PlanLine, Why>
    ensures { result ≡ plan_form plan.Finish (words_of words.now) }
{
    let (word, words) = next(words);
    let j = only(long_of(word, 1, 9_999_999_999), words)?;
    Ok(PlanLine::Finish { j })
}

fn send(words: &[u8]) -> Result<PlanLine, Why>
    ensures { result ≡ plan_form plan.Send (words_of words.now) }
{
    let (k, words) = client_in(words);
    let (max, words) = number_in(words, 1, 16_777_216);
    let (k, max) = both(k, only(max, words))?;
    Ok(PlanLine::Send { k, max })
}

/// The plan line of this kind with these words after its first.
pub fn plan_line(kind: PlanKind, words: &[u8]) -> Result<PlanLine, Why>
    ensures { result ≡ plan_form kind (words_of words.now) }
{
    match kind {
        PlanKind::Accept => {
            none(words)?;
            Ok(PlanLine::Accept)
        }
        PlanKind::Read => {
            let k = one_number(words, 0, 99_999)?;
            Ok(PlanLine::Read { k })
        }
        PlanKind::Capture => {
            let (k, wid) = client_and_window(words)?;
            Ok(PlanLine::Capture { k, wid })
        }
        PlanKind::Take => {
            none(words)?;
            Ok(PlanLine::Take)
        }
        PlanKind::Finish => finish(words),
        PlanKind::Send => send(words),
        PlanKind::Owed => {
            let (k, wid) = client_and_window(words)?;
            Ok(PlanLine::Owed { k, wid })
        }
        PlanKind::Wait => {
            let ms = one_number(words, 0, 1_000_000)?;
            Ok(PlanLine::Wait { ms })
        }
        PlanKind::Turn => {
            none(words)?;
            Ok(PlanLine::Turn)
        }
    }
}
