// What follows of captures, results and giving back. Each law makes the calls of those that it stands on.
ghost use Rattle.attached_client.specs.Drawing.{DrawingKeeps, DrawingMarks, DrawingOwes};
ghost use Rattle.attached_client.specs.Capturing.{CapturedIsDrawn, FiledIsDrawn};

use client_delivery::{
    attaching_and_drawing_owe_so, each_delivery_changes_owed_so,
    what_a_client_says_keeps_what_is_told, what_is_drawn_keeps_what_is_told,
};
use rect_regions::Region;
use window_source::WindowSource;
use xp_base::keyed_finds;

/// Where each window of a client is the model's, a capture, a result, and giving jobs back keep that. They change no mark and
/// nothing that is owed.
pub fn drawing_keeps_a_client()
    ensures told { DrawingKeeps }
    ensures marks { DrawingMarks }
    ensures owed { DrawingOwes }
{
    keyed_finds::<WindowSource<Region>>();
    what_is_drawn_keeps_what_is_told();
    what_a_client_says_keeps_what_is_told();
    attaching_and_drawing_owe_so();
    each_delivery_changes_owed_so();
}

/// Jobs that a capture made, and a result that was filed, are such drawing.
pub fn captures_and_results_are_drawn()
    ensures captured { CapturedIsDrawn }
    ensures filed { FiledIsDrawn }
{
    keyed_finds::<WindowSource<Region>>();
}
