// The paint lines of a script.
ghost use Rattle.std.specs.Prelude.{◌≡◌, ◌+◌, length, slice_get, IfSome, IfNone};
ghost use Rattle.std.specs.Option.{option_copied};

use script_lines::Paint;
use std::marker::Model;

/// Paint lines in order, each valid on the desktop that the lines before it make from an empty one. No
/// window's number is opened twice.
#[derive(Debug, Drop)]
pub struct Paints {
    lines: Vec<Paint>,
}

impl Model for Paints {
    ghost use Rattle.std.specs.Prelude.{List};
    ghost use Rattle.script_lines.specs.declared.paint.Paint.{Paint};

    ghost Value = { List Paint };

    ghost use Rattle.paint_script.specs.Validity.{ArePaints};

    ghost view = { λ p. p.lines.items };

    ghost invariant = { λ p. ArePaints p.lines.items };
}

impl Paints {
    ghost use Rattle.paint_script.specs.Painting.{painted, desk_at, last_desk};
    ghost use Rattle.paint_script.specs.Validity.{ArePaints, IsPaintOn};

    pub(crate) fn new(lines: Vec<Paint>) -> Paints
        requires { ArePaints lines.items }
        ensures { result ≡ lines.items }
    {
        Paints { lines }
    }

    /// How many lines there are; and that each is valid, as a fact for proofs.
    pub fn len(&self) -> usize
        ensures value { result ≡ length self.now }
        ensures valid { ArePaints self.now }
    {
        self.lines.len()
    }

    pub fn as_slice(&self) -> &[Paint]
        ensures items { result.now ≡ self.now }
        ensures valid { ArePaints self.now }
    {
        self.lines.as_slice()
    }

    /// The line at this place, counted from 0; `None` exactly where the places end before it. It is
    /// valid on the desktop after that many lines, and paints the next one; past the last line the
    /// desktop is the last one.
    pub fn line(&self, place: usize) -> Option<&Paint>
        ensures line { option_copied result ≡ slice_get self.now place }
        ensures valid { IfSome result (λ p. IsPaintOn (desk_at self.now place) p.now) }
        ensures next { IfSome result (λ p. desk_at self.now (place + 1) ≡ painted (desk_at self.now place) p.now) }
        ensures last { IfNone result (desk_at self.now place ≡ last_desk self.now) }
    {
        line_at(self.lines.as_slice(), place)
    }
}

fn line_at(lines: &[Paint], place: usize) -> Option<&Paint>
    ensures { option_copied result ≡ slice_get lines.now place }
{
    lines.get(place)
}
