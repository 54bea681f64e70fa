// What follows of a client's hello and of what it says. Each law makes the calls of the laws that it stands on.
ghost use Rattle.attached_client.specs.Laws.{AttachesSo, ActingKeeps, ActingMarks, ActingOwes};

use client_delivery::{
    each_delivery_changes_owed_so, each_paint_changes_owed_so,
    what_a_client_says_keeps_what_is_told,
};
use hello_caps::the_server_spells;
use packet_kinds::{
    a_plain_message_has_a_small_value, a_plain_message_may_be_written,
    what_is_written_is_read_as_the_same_message,
};
use rect_regions::Region;
use window_source::WindowSource;
use xp_base::keyed_finds;

/// A client that was just attached, as the steps of a client say it.
pub fn a_new_client_attaches()
    ensures { AttachesSo }
{
    the_server_spells();
    what_is_written_is_read_as_the_same_message();
    a_plain_message_may_be_written();
    a_plain_message_has_a_small_value();
}

/// Whatever a client says, each of its windows stays the model's.
pub fn acting_keeps_what_is_told()
    ensures { ActingKeeps }
{
    what_a_client_says_keeps_what_is_told();
    what_is_written_is_read_as_the_same_message();
    a_plain_message_may_be_written();
    a_plain_message_has_a_small_value();
}

/// What a message does to the windows' marks, and to what is owed.
pub fn messages_mark_and_owe_so()
    ensures marks { ActingMarks }
    ensures owed { ActingOwes }
{
    keyed_finds::<WindowSource<Region>>();
    each_delivery_changes_owed_so();
    each_paint_changes_owed_so();
    what_is_written_is_read_as_the_same_message();
    a_plain_message_may_be_written();
    a_plain_message_has_a_small_value();
}
