// What follows from the bytes that a client gave. Each law makes the calls of the laws that it stands on.
ghost use Rattle.client_talk.specs.Laws.{
  GoesOnListening,
  EndsForItsCause,
  GoingIsGreeted,
  AttachedIsGreeted,
  AttachedStays,
  RefusedAtFirst,
  MarksFollow,
  MarkBegins,
  MarkHears,
  MarkSends,
  MappedIsMarked,
};

use packet_frames::{appending_reads_on, packets_before_stay};
use packet_kinds::{a_talk_goes_packet_by_packet, more_bytes_only_say_more};

/// A client that goes on behind a read has said what the bytes given so far say, and its framer holds what is left.
pub fn the_talk_goes_on<T>()
    ensures { GoesOnListening T }
{
    appending_reads_on();
    packets_before_stay();
    a_talk_goes_packet_by_packet();
}

/// What ends a talk is said by the bytes given so far.
pub fn an_ending_has_its_cause<T>()
    ensures { EndsForItsCause T }
{
    appending_reads_on();
    packets_before_stay();
    a_talk_goes_packet_by_packet();
}

/// A client that is there has an accepted hello in the bytes given: one that goes on, and one that a read attached,
/// whatever else that read said.
pub fn a_client_is_greeted_by_its_bytes<T>()
    ensures going { GoingIsGreeted }
    ensures attached { AttachedIsGreeted T }
{
    appending_reads_on();
    packets_before_stay();
    a_talk_goes_packet_by_packet();
}

/// A client whose hello was accepted keeps its capabilities, whatever it says and however it ends; it is not refused.
pub fn a_greeted_client_stays_so<T>()
    ensures caps { AttachedStays T }
    ensures refused { RefusedAtFirst T }
{}

/// A read says some messages more, and a window's mark is what they make of it.
pub fn marks_follow_the_talk<T>()
    ensures { MarksFollow T }
{
    appending_reads_on();
    packets_before_stay();
    a_talk_goes_packet_by_packet();
}

/// What is kept of a window's mark stays true: from where the window begins, over what the client says, and over what it
/// is sent.
pub fn marks_stay_true()
    ensures begins { MarkBegins }
    ensures hears { MarkHears }
    ensures sends { MarkSends }
{
    more_bytes_only_say_more();
}

/// A window that the client mapped, by a message that it gave after it was shown the window, is marked.
pub fn a_mapped_window_is_marked()
    ensures { MappedIsMarked }
{}
