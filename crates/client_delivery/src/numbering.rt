// Each step of an attached client keeps the numbers of its jobs and draws in order.
ghost use Rattle.client_delivery.specs.Numbering.{
  AttachNumbers,
  QuietNumbers,
  PaintNumbers,
  OpenNumbers,
  CloseNumbers,
  ResizeNumbers,
  PutNumbers,
  CaptureNumbers,
  FileNumbers,
  WriteNumbers,
  NumberingWaits,
};

use delivery_model::{every_event_keeps_the_numbering, numbering_waits};

/// A client that was just attached, and a window that is opened.
pub fn a_window_begins_numbered()
    ensures attach { AttachNumbers }
    ensures open { OpenNumbers }
{}

/// Paint, a close, a resize, and packets that are no draws.
pub fn each_paint_keeps_the_numbering()
    ensures paint { PaintNumbers }
    ensures close { CloseNumbers }
    ensures resize { ResizeNumbers }
    ensures put { PutNumbers }
{}

/// What a client says of one window, a capture, a result and a write.
pub fn each_delivery_keeps_the_numbering()
    ensures window { QuietNumbers }
    ensures capture { CaptureNumbers }
    ensures file { FileNumbers }
    ensures write { WriteNumbers }
    ensures waits { NumberingWaits }
{
    every_event_keeps_the_numbering();
    numbering_waits();
}
