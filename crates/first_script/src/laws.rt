// What the definitions come to, as facts that a proof gets by a call: each call does nothing.
ghost use Rattle.first_script.specs.Laws.{DeskAtStart, DeskAtNext, DeskAtEnd, ValidDesks, ScriptsOfTexts, ValidScripts};

/// No line has painted anything.
pub fn desk_at_start()
    ensures { DeskAtStart }
{}

/// The desktop after one more line is that line's effect.
pub fn desk_at_next()
    ensures { DeskAtNext }
{}

/// After all lines the desktop is the last one.
pub fn desk_at_end()
    ensures { DeskAtEnd }
{}

/// After any number of valid lines there is a desktop, of at most 32 windows and 4,194,304 pixels.
pub fn valid_desks()
    ensures { ValidDesks }
{
    window_model::effects_keep();
}

/// Which lines are read from a text, and which fault.
pub fn scripts_of_texts()
    ensures { ScriptsOfTexts }
{}

/// The lines that are read are valid.
pub fn valid_scripts()
    ensures { ValidScripts }
{}
