//! The packets of both sides as types: how each is read from a value and written, what the server's do
//! to a picture of the windows, and what a client has said.
#![tactic(auto)]

mod copies;
mod draw_fields;
mod draws_in;
mod fault;
mod from_client;
mod from_reading;
mod from_values;
mod heard;
mod items_in;
mod items_out;
mod laws;
mod replies;
mod taking;
mod to_client;
mod to_reading;
mod to_values;
mod windows_in;
mod writing;
mod written;

pub use fault::{KindFault, TalkFault};
pub use from_client::FromClient;
pub use from_reading::read_from_client;
pub use heard::{
    a_talk_follows_a_framer, a_talk_goes_packet_by_packet, a_written_message_is_heard,
    more_bytes_only_say_more, nothing_is_heard_behind_a_fault, nothing_is_said_at_first,
    what_is_said_is_what_is_read,
};
pub use laws::{
    a_draw_holds_its_pixels, a_draw_shows, a_message_follows, a_message_has_bytes,
    a_new_window_shows, a_part_shows_nothing, a_picture_folds, a_picture_is_a_desktop,
    a_picture_stops, a_read_packet_has_fields, a_resize_shows, an_effect_keeps_a_desktop,
    nothing_is_shown_at_first, numbers_stay_distinct, one_window_changes,
};
pub use replies::{
    a_message_is_answered, a_packet_has_an_effect_by_its_bytes, an_answer_may_be_written,
    nothing_is_answered_at_first, replies_go_packet_by_packet, replies_only_go_on,
};
pub use taking::take_to_client;
pub use to_client::ToClient;
pub use to_reading::read_to_client;
pub use writing::{from_bytes_of, to_bytes};
pub use written::{
    a_plain_message_has_a_small_value, a_plain_message_may_be_written,
    a_small_packet_of_a_client_may_be_written, what_a_client_writes_is_read_as_the_same_message,
    what_is_written_is_read_as_the_same_message,
};
