// What a line does to the desktop and to the numbers opened so far, as a client meets it.
ghost use Rattle.line_changes.specs.Laws.{LineChanges, LineOpens};

use window_model::{Win, drawn_sizes, filled_shows, placed_shows};
use xp_base::keyed_finds;

/// The desktop after the line is that before it with the line's change.
pub fn a_line_changes_the_desktop_so()
    ensures { LineChanges }
{
    keyed_finds::<Win>();
    filled_shows();
    placed_shows();
    drawn_sizes();
}

/// A line that opens a window brings its number to those opened so far, and no other line does.
pub fn a_line_opens_its_number()
    ensures { LineOpens }
{}
