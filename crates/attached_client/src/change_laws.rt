// What follows of a client's change beside the desktop's. Each law makes the calls of those that it stands on.
ghost use Rattle.attached_client.specs.ChangeLaws.{ChangeKeeps, ChangeFits, ChangeStays, ChangeMarks, ChangeOwes, ChangeNumbers};

use client_delivery::{
    a_window_begins_numbered, each_paint_changes_owed_so, each_paint_keeps_the_numbering,
    each_paint_keeps_what_is_told,
};
use packet_kinds::{
    a_plain_message_has_a_small_value, a_plain_message_may_be_written,
    what_is_written_is_read_as_the_same_message,
};
use rect_regions::Region;
use window_model::Win;
use window_source::WindowSource;
use xp_base::keyed_finds;

/// Beside the desktop after a paint line each window of the client is the model's, if so it was before it. What the
/// change needs is there, and the client is the same.
pub fn a_change_keeps_a_client()
    ensures told { ChangeKeeps }
    ensures fits { ChangeFits }
    ensures stays { ChangeStays }
{
    keyed_finds::<Win>();
    each_paint_keeps_what_is_told();
    what_is_written_is_read_as_the_same_message();
    a_plain_message_may_be_written();
    a_plain_message_has_a_small_value();
}

/// A window that is opened begins unmarked, and every other keeps its mark.
pub fn a_change_keeps_marks()
    ensures { ChangeMarks }
{
    keyed_finds::<WindowSource<Region>>();
}

/// What is owed after a paint line.
pub fn a_change_changes_owed_so()
    ensures { ChangeOwes }
{
    keyed_finds::<Win>();
    each_paint_changes_owed_so();
    what_is_written_is_read_as_the_same_message();
    a_plain_message_may_be_written();
    a_plain_message_has_a_small_value();
}

/// The numbers of jobs and draws stay in order.
pub fn a_change_keeps_the_numbering()
    ensures { ChangeNumbers }
{
    keyed_finds::<Win>();
    a_window_begins_numbered();
    each_paint_keeps_the_numbering();
    what_is_written_is_read_as_the_same_message();
    a_plain_message_may_be_written();
    a_plain_message_has_a_small_value();
}
