// What the calls of a source come to, each law the clause of a function that at most cites others.
ghost use Rattle.window_source.specs.Laws.{DamageIsOfWindow, UnmapIsOfWindow, GivingBackIsOfWindow, AcknowledgementIsOfWindow};
ghost use Rattle.window_source.specs.Laws.{CaptureIsOfWindow, ResizeIsOfWindow, EventsKeepAndOwe};

use delivery_model::{every_event_changes_owed_as_stated, every_event_keeps_the_form};

/// Each call of a source is the model's event of its window, whatever pixels the desktop has, what the client shows and
/// which packets wait.
pub fn calls_are_the_models_events()
    ensures damage { DamageIsOfWindow }
    ensures unmap { UnmapIsOfWindow }
    ensures give_back { GivingBackIsOfWindow }
    ensures acknowledge { AcknowledgementIsOfWindow }
    ensures capture { CaptureIsOfWindow }
    ensures resize { ResizeIsOfWindow }
{}

/// So the form of its window is kept, from which all that is known of one window follows, and what is owed changes as
/// the model states.
pub fn calls_keep_the_form_and_what_is_owed()
    ensures { EventsKeepAndOwe }
{
    every_event_keeps_the_form();
    every_event_changes_owed_as_stated();
}
