// What the definitions come to, as facts that a proof gets by a call: each call does nothing.
ghost use Rattle.script_lines.specs.Laws.{LinesInRange};

/// The numbers of a line that is read are in their ranges.
pub fn lines_in_range()
    ensures { LinesInRange }
{}
