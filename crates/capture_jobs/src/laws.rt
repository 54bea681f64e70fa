// What plans come to, each law the clause of a function that does nothing.
ghost use Rattle.capture_jobs.specs.Laws.{PlansAreTheModels, PlansAreShort};

/// A plan of what a capture takes is one as the model of deliveries wants it: its rectangles lie in the
/// window, share no point and have each point taken; a lossy one has no other point, and a refresh is
/// exact.
pub fn plans_are_the_models()
    ensures { PlansAreTheModels }
{}

/// A plan has at most 32 rectangles.
pub fn plans_are_short()
    ensures { PlansAreShort }
{}
