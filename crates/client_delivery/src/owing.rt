// What is owed an attached client: each differing pixel, and how each step changes it.
ghost use Rattle.client_delivery.specs.Owing.{
  ToldOwesWhatDiffers,
  AttachOwes,
  CaptureOwes,
  FileOwes,
  PaintOwes,
  OpenOwes,
  CloseOwes,
  ResizeOwes,
  PutOwes,
  QuietOwes,
  WholeWriteOwes,
};

use delivery_model::{
    every_event_changes_owed_as_stated, form_gives_invariant, points_are_their_tests,
};
use packet_kinds::a_part_shows_nothing;

/// Each pixel in which the client's picture, read from the bytes sent to it, differs from the desktop is owed.
pub fn each_differing_pixel_is_owed()
    ensures { ToldOwesWhatDiffers }
{
    form_gives_invariant();
    points_are_their_tests();
    a_part_shows_nothing();
}

/// A painted rectangle is owed too; a new window is owed whole; of a closed one nothing is; of a resized one what was owed in
/// both sizes, and what is new; a move, a raise and an answer change nothing.
pub fn each_paint_changes_owed_so()
    ensures paint { PaintOwes }
    ensures open { OpenOwes }
    ensures close { CloseOwes }
    ensures resize { ResizeOwes }
    ensures put { PutOwes }
{
    points_are_their_tests();
}

/// Map, unmap and giving back change nothing; a refresh owes the whole window, and a late acknowledgement its draw's rectangle.
/// Once the first packet is written whole, the points in its relief are owed where something else owes them.
pub fn each_delivery_changes_owed_so()
    ensures window { QuietOwes }
    ensures write { WholeWriteOwes }
{
    points_are_their_tests();
}

/// A client that attaches is owed the whole desktop; a capture, and a result, change nothing.
pub fn attaching_and_drawing_owe_so()
    ensures attach { AttachOwes }
    ensures capture { CaptureOwes }
    ensures file { FileOwes }
{
    every_event_changes_owed_as_stated();
    points_are_their_tests();
}
