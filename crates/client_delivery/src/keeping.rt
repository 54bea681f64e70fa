// Each step of an attached client keeps that each of its windows is the model's. Each law makes the calls of the laws that
// it stands on.
ghost use Rattle.client_delivery.specs.Keeping.{
  AttachTells,
  QuietKeeps,
  PaintKeeps,
  OpenKeeps,
  CloseKeeps,
  ResizeKeeps,
  MoveKeeps,
  RaiseKeeps,
  AnswerKeeps,
  CaptureKeeps,
  FileKeeps,
  WriteKeeps,
  ToldLaysOut,
  ToldShowsOpened,
};

use delivery_model::{every_event_keeps_the_form, grids_are_their_numbers, points_are_their_tests};
use packet_kinds::{
    a_message_follows, a_message_has_bytes, a_part_shows_nothing, nothing_is_shown_at_first,
    one_window_changes,
};
use window_model::{blank_shows, drawn_sizes, placed_shows, resized_shows};

/// A client that was just attached, and to which nothing was sent yet.
pub fn a_client_that_attaches_is_told()
    ensures { AttachTells }
{
    every_event_keeps_the_form();
    nothing_is_shown_at_first();
    a_message_has_bytes();
}

/// Each paint line, once what it brings to the client was put in.
pub fn each_paint_keeps_what_is_told()
    ensures paint { PaintKeeps }
    ensures open { OpenKeeps }
    ensures close { CloseKeeps }
    ensures resize { ResizeKeeps }
    ensures place { MoveKeeps }
    ensures top { RaiseKeeps }
{
    grids_are_their_numbers();
    points_are_their_tests();
    resized_shows();
    drawn_sizes();
    every_event_keeps_the_form();
    a_message_has_bytes();
}

/// What a client says of one window, and the answer to its ping.
pub fn what_a_client_says_keeps_what_is_told()
    ensures window { QuietKeeps }
    ensures ping { AnswerKeeps }
{
    every_event_keeps_the_form();
    a_message_has_bytes();
}

/// A capture, and a result.
pub fn what_is_drawn_keeps_what_is_told()
    ensures capture { CaptureKeeps }
    ensures file { FileKeeps }
{
    every_event_keeps_the_form();
    a_message_has_bytes();
}

/// A write of some bytes of the first packet that waits.
pub fn each_write_keeps_what_is_told()
    ensures { WriteKeeps }
{
    grids_are_their_numbers();
    blank_shows();
    placed_shows();
    resized_shows();
    drawn_sizes();
    a_message_has_bytes();
    every_event_keeps_the_form();
    a_message_follows();
    one_window_changes();
}

/// Once all that waits is sent a client shows the desktop's windows in its order, with its places and sizes.
pub fn what_waits_lays_out_the_desktop()
    ensures { ToldLaysOut }
{
    a_message_follows();
}

/// A client shows no window with a number that no line so far has opened.
pub fn only_opened_windows_are_shown()
    ensures { ToldShowsOpened }
{
    a_part_shows_nothing();
}
