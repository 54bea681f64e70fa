// What each step of a connection keeps. Each law makes the calls of the laws that it stands on.
ghost use Rattle.connection_steps.specs.Laws.{
  AcceptedIsKept,
  WaitingKeeps,
  HearingKeeps,
  HearingEndsIt,
  SendingKeeps,
  KeptOwesWhatDiffers,
  StandingIsGreeted,
  ReadingGreets,
  ReadingKeepsCaps,
  RefusedGetsGoodbye,
  ChangingKeeps,
};

use attached_client::{Attached, messages_mark_and_owe_so};
use client_delivery::{
    each_differing_pixel_is_owed, each_write_keeps_what_is_told, only_opened_windows_are_shown,
};
use client_talk::{
    a_client_is_greeted_by_its_bytes, a_greeted_client_stays_so, marks_follow_the_talk,
    marks_stay_true,
};
use open_connection::{hearing_keeps_what_is_told, what_is_heard_is_what_was_given};
use std::marker::Model;

/// A client whatever room it has, for laws alone.
#[derive(Drop)]
struct Plain {
    client: Attached,
}

impl Model for Plain {
    ghost use Rattle.attached_client.specs.Client.{ClientSeen};

    ghost Value = { ClientSeen };

    ghost view = { λ p. p.client.client };
}

/// One that was just accepted; and what a step keeps that moves no byte.
pub fn an_accepted_connection_is_kept()
    ensures accepted { AcceptedIsKept }
    ensures waiting { WaitingKeeps }
{}

/// What is read, whatever it says.
pub fn hearing_keeps_a_connection()
    ensures { HearingKeeps }
{
    what_is_heard_is_what_was_given();
    hearing_keeps_what_is_told();
    messages_mark_and_owe_so();
    marks_follow_the_talk::<Plain>();
    marks_stay_true();
}

/// What ends a talk is said by the bytes given.
pub fn what_ends_a_talk_was_given()
    ensures { HearingEndsIt }
{
    what_is_heard_is_what_was_given();
}

/// A client's hello is in the bytes given: of one that stood before, and of one that a read attached, whatever else it said;
/// and whatever an attached client says it keeps its capabilities.
pub fn an_attached_client_has_greeted()
    ensures stands { StandingIsGreeted }
    ensures read { ReadingGreets }
    ensures keeps { ReadingKeepsCaps }
{
    a_client_is_greeted_by_its_bytes::<Plain>();
    a_greeted_client_stays_so::<Plain>();
}

/// A refused client was sent the front of its goodbye, and said what it is refused for.
pub fn a_refused_client_gets_its_goodbye()
    ensures { RefusedGetsGoodbye }
{
    what_is_heard_is_what_was_given();
    a_greeted_client_stays_so::<Plain>();
}

/// What a paint line brings, where the client is then told of the desktop after it.
pub fn a_paint_line_keeps_a_connection()
    ensures { ChangingKeeps }
{
    marks_stay_true();
}

/// A write, whatever it takes.
pub fn a_write_keeps_a_connection()
    ensures { SendingKeeps }
{
    each_write_keeps_what_is_told();
    only_opened_windows_are_shown();
    marks_stay_true();
}

/// Each pixel in which an attached client's picture, read from the bytes sent to it, differs from the desktop is owed.
pub fn differing_pixels_are_owed()
    ensures { KeptOwesWhatDiffers }
{
    each_differing_pixel_is_owed();
}
