// What the definitions come to, as facts that a proof gets by a call: each call does nothing.
ghost use Rattle.window_model.specs.Laws.{BlankShows, FilledShows, PlacedShows, CroppedShows, CopiedShows, ResizedShows, DrawnSizes, DrawnWhole};
ghost use Rattle.window_model.specs.Laws.{OpenedFinds, ChangedFinds, RemovedFinds, RaisedFinds, NumbersKept, EffectsKeep};

/// Each point of a new window shows 0.
pub fn blank_shows()
    ensures { BlankShows }
{}

/// A point of a filled window shows the colour in the rectangle, and what it showed elsewhere.
pub fn filled_shows()
    ensures { FilledShows }
{}

/// A point shows the numbers put in the rectangle, and what it showed elsewhere.
pub fn placed_shows()
    ensures { PlacedShows }
{}

/// A point of the cropped rectangle shows what the window shows there.
pub fn cropped_shows()
    ensures { CroppedShows }
{}

/// A point of a copy's target shows what the rectangle's point showed before, and every other what it showed.
pub fn copied_shows()
    ensures { CopiedShows }
{}

/// In a window with another size, a point that it had shows what it showed, and a new one 0.
pub fn resized_shows()
    ensures { ResizedShows }
{}

/// How many numbers each drawing makes.
pub fn drawn_sizes()
    ensures { DrawnSizes }
{}

/// The whole of a window, cropped and put.
pub fn drawn_whole()
    ensures { DrawnWhole }
{}

/// Where a window was opened, the new one is found by its number, and the others as before.
pub fn opened_finds()
    ensures { OpenedFinds }
{}

/// Where a window was changed and kept its number, it is found changed, and the others as before.
pub fn changed_finds()
    ensures { ChangedFinds }
{}

/// Where a window was closed, it is not found, and the others as before.
pub fn removed_finds()
    ensures { RemovedFinds }
{}

/// Where a window was raised, each is found as before.
pub fn raised_finds()
    ensures { RaisedFinds }
{}

/// The windows' numbers from bottom to top, after each effect.
pub fn numbers_kept()
    ensures { NumbersKept }
{}

/// The effects keep a desktop.
pub fn effects_keep()
    ensures { EffectsKeep }
{}
