//! The observer's notes of the events of a trace.
ghost use Rattle.promises.specs.Dropped.{NotifiesDropped};
ghost use Rattle.server.specs.Ledger.{Ledger};
ghost use Rattle.server.specs.Turn.{Trace, Runs};

/// The happenings of a trace are one run of the core (`server::trace_is_one_run`). For each of its events, in
/// order, the observer has notes: for an event that was dropped, that memory for it was refused; for any
/// other, its cancels and its dispatch, or that memory for the dispatch was refused. Hence the dropped
/// events, and the dispatches that were not made, are exactly those of which the observer was notified,
/// whatever else was refused. If memory is refused to make an event of the input, no event comes, and the observer
/// gets the same note: the choice before the note in the trace, or its absence, distinguishes the two cases.
pub fn dropped_events_are_notified()
    ensures { (trace : Trace) (old new : Ledger) → Runs trace old new → NotifiesDropped trace old.core new.core }
{}
