// What is true of every log of one window of one client.
ghost use Rattle.delivery_log.specs.Laws.{EventsKeepAgreement, AgreementWaits, OwedIsStale, UnqueuedIsStale, RunsOweWhatIsStale};
ghost use Rattle.delivery_log.specs.Laws.{EventsKeepTimes, TimesWait, DueAfterTick, ReadingUnloads, FilingEmpties, ResultsEmpty, WritingEmpties};
ghost use Rattle.delivery_log.specs.Laws.{ReadingKeepsRest, CapturePendsNothing, CaptureAllowed, EndsNearer, QuietTurnsRest, NearerTogether};
ghost use Rattle.delivery_log.specs.Laws.{ClientsRest, ThreeTurnsRepair, RestIsLeast, ClientsRestIsLeast, EventsKeepPointwise};
ghost use Rattle.delivery_log.specs.Laws.{OrderedResultsDrawOut, FrontResultsLeaveTheRest};

/// For every log: where it agrees with the window before an event, it does after it, with the event's
/// entries. A start begins a log that agrees.
pub fn every_event_keeps_the_agreement()
    ensures { EventsKeepAgreement }
{}

/// The agreement stands while other windows take job numbers.
pub fn agreement_waits()
    ensures { AgreementWaits }
{}

/// Where window and log agree a point is owed exactly where it is stale; and it is pending, in the relief
/// of a job in hand, or lossy, exactly where it is stale once all waiting draws are written.
pub fn owed_is_stale()
    ensures written { OwedIsStale }
    ensures queued { UnqueuedIsStale }
{}

/// From a window's start on, with the log of what happened, a point is owed exactly where it is stale.
pub fn runs_owe_what_is_stale()
    ensures { RunsOweWhatIsStale }
{}

/// A window's moments stay in the past, and its delay from 10 to 500 milliseconds.
pub fn every_event_keeps_the_times()
    ensures event { EventsKeepTimes }
    ensures later { TimesWait }
{}

/// What the parts of a quiet turn do: 500 milliseconds make damage and refresh due; a read of all
/// acknowledgements takes the load of an idle window; results of all jobs leave none in hand, those of a
/// turn's own capture among them; as many writes as there are packets leave none waiting.
pub fn parts_of_a_turn()
    ensures tick { DueAfterTick }
    ensures read { ReadingUnloads }
    ensures file { FilingEmpties }
    ensures results { ResultsEmpty }
    ensures write { WritingEmpties }
{}

/// And what they do to the distance from rest: a read leaves it; a capture is allowed where the window has no
/// load, and leaves nothing pending; once all is filed and written the distance is 2 or less, and 1 or less
/// where nothing was pending.
pub fn parts_of_a_turn_come_nearer()
    ensures read { ReadingKeepsRest }
    ensures allowed { CaptureAllowed }
    ensures capture { CapturePendsNothing }
    ensures end { EndsNearer }
{}

/// A quiet turn brings a window one nearer to rest, or leaves it there.
pub fn quiet_turns_rest()
    ensures { QuietTurnsRest }
{}

/// So it does a client with all its windows; and after three such turns nothing on its mapped windows is owed.
pub fn clients_rest()
    ensures windows { NearerTogether }
    ensures turn { ClientsRest }
    ensures three { ThreeTurnsRepair }
{}

/// The distance from rest, of a window and of a client, is the least of the table whose row holds. Every event
/// keeps what this needs of a window: that its pending points are a set of its points.
pub fn rest_is_the_least_of_its_table()
    ensures window { RestIsLeast }
    ensures client { ClientsRestIsLeast }
    ensures kept { EventsKeepPointwise }
{}

/// A window with no job in hand that is captured is drawn out once the results of its jobs are filed in their
/// order: no job is in hand, nothing is pending, and after a refresh no point is lossy. The first job's result is
/// filed; the jobs behind it stay in hand where the next one has no result yet.
pub fn results_in_order_draw_a_window_out()
    ensures drawn { OrderedResultsDrawOut }
    ensures rest { FrontResultsLeaveTheRest }
{}
