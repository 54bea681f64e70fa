// What the definitions come to, as facts that a proof gets by a call: each call does nothing.
ghost use Rattle.paint_script.specs.Laws.{DeskAtStart, DeskAtNext, DeskAtEnd, PaintedLines, PaintNeeds, OpenedNumbers, ValidDesks, ScriptPaints, ScriptsOfTexts};

/// No line has painted anything.
pub fn desk_at_start()
    ensures { DeskAtStart }
{}

/// The desktop after one more line is that line's effect.
pub fn desk_at_next()
    ensures { DeskAtNext }
{}

/// After all lines the desktop is the last one.
pub fn desk_at_end()
    ensures { DeskAtEnd }
{}

/// What each kind of line paints.
pub fn painted_lines()
    ensures { PaintedLines }
{}

/// What each kind of line needs on the desktop that it meets.
pub fn paint_needs()
    ensures { PaintNeeds }
{}

/// Which numbers the first so many lines opened, and that no valid line opens one of them again.
pub fn opened_numbers()
    ensures { OpenedNumbers }
{}

/// After any number of valid lines there is a desktop, of at most 32 windows and 4,194,304 pixels.
pub fn valid_desks()
    ensures { ValidDesks }
{
    window_model::effects_keep();
}

/// The paint lines of a script are valid.
pub fn script_paints()
    ensures { ScriptPaints }
{
    window_model::effects_keep();
}

/// Which lines a text is, and which fault it has.
pub fn scripts_of_texts()
    ensures { ScriptsOfTexts }
{}
