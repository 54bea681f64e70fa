// Scripts.
ghost use Rattle.std.specs.Prelude.{◌≡◌, IfOk};
ghost use Rattle.paint_script.specs.Validity.{paint_lines};

use crate::laws::script_paints;
use crate::paints::Paints;
use script_lines::{Line, Paint};
use std::alloc::Global;
use std::marker::Model;
use xp_base::NoMemory;

/// Lines in order, with no fault in any of them.
#[derive(Debug, Drop)]
pub struct Script {
    lines: Vec<Line>,
}

impl Model for Script {
    ghost use Rattle.std.specs.Prelude.{List};
    ghost use Rattle.script_lines.specs.declared.line.Line.{Line};

    ghost Value = { List Line };

    ghost use Rattle.paint_script.specs.Faults.{IsScript};

    ghost view = { λ s. s.lines.items };

    ghost invariant = { λ s. IsScript s.lines.items };
}

impl Script {
    ghost use Rattle.paint_script.specs.Faults.{IsScript};
    ghost use Rattle.paint_script.specs.Validity.{paint_lines};

    /// The script of these lines, of which none may have a fault. There may be more of them than a text
    /// may have.
    pub fn of_lines(lines: Vec<Line>) -> Script
        requires { IsScript lines.items }
        ensures { result ≡ lines.items }
    {
        Script { lines }
    }

    /// All lines; and that they are valid, as a fact for proofs.
    pub fn lines(&self) -> &[Line]
        ensures items { result.now ≡ self.now }
        ensures valid { IsScript self.now }
    {
        self.lines.as_slice()
    }

    /// The paint lines, in order.
    pub fn paints(&self, alloc: Global) -> Result<Paints, NoMemory>
        ensures { IfOk result (λ paints. paints ≡ paint_lines self.now) }
    {
        script_paints();
        Ok(Paints::new(paints_in(alloc, self.lines.as_slice())?))
    }
}

fn paints_in(alloc: Global, lines: &[Line]) -> Result<Vec<Paint>, NoMemory>
    ensures { IfOk result (λ paints. paints.items ≡ paint_lines lines.now) }
{
    let mut paints = Vec::new(alloc);
    for line in lines {
        match line {
            Line::Paint(paint) => paints.push(*paint)?,
            Line::Peer(_) => {}
            Line::Plan(_) => {}
        }
    }
    Ok(paints)
}
