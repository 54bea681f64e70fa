// What the ends of a table come to.
ghost use Rattle.connection_table.specs.Tables.{AllEnded};

/// Where no slot is open and none was taken out, each is the end of its place.
pub fn all_ended<T, E>()
    ensures { AllEnded T E }
{}
