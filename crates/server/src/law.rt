//! Laws of traces, as the contracts of functions that do nothing.
ghost use Rattle.std.specs.Prelude.{ℕ, Bool, ◌∷◌, []};
ghost use Rattle.http_front.specs.Reply.{continue_head};
ghost use Rattle.http_front.specs.declared.refusal.HttpRejection.{HttpRejection};
ghost use Rattle.events.specs.declared.status.Status.{Status};
ghost use Rattle.print_room.specs.State.{State};
ghost use Rattle.server.specs.Ledger.{Ledger, opening_ledger};
ghost use Rattle.connections.specs.Reply.{refusal_head};
ghost use Rattle.connections.specs.Steps.{http_status};
ghost use Rattle.server.specs.Law.{IsOneRun, IsAtMostOne, AllTaken, AreKept, AreOwed};
ghost use Rattle.server.specs.Turn.{Action, DoesAction, Trace, Runs};

/// A trace is one run of the core. The events of the actions, in order and each at the moment of its action,
/// lead the core from its state before the trace to its state after the trace. The notes of the run are the
/// notes of the core that the observer gets in the trace, in the same order: the cancels, the plans with
/// the jobs that began, and the dispatches that were refused memory. If no memory is refused in the trace, no
/// event is dropped, and a dispatch follows each event that isn't a query.
pub fn trace_is_one_run()
    ensures { (trace : Trace) (old new : Ledger) → Runs trace old new → IsOneRun trace old.core new.core }
{}

/// An action between turns is one event if no memory was refused: a report, a tick, or the event of a body
/// with the bytes of its reply. A body that is too short or is refused brings no event and changes nothing.
/// The observer is notified of the cancels of the event, then the dispatch unless the event is a query, and nothing
/// else.
pub fn action_is_one_event()
    ensures { (action : Action) (old new : Ledger) → DoesAction action old new → IsAtMostOne action old.core new.core }
{}

/// The wire took all due bytes of each connection that was drained when it was closed, and a prefix of the due
/// bytes of each connection that was closed as by a fault.
pub fn closed_were_given()
    ensures { (opening : State) (trace : Trace) (ledger : Ledger) → Runs trace (opening_ledger opening) ledger → AllTaken ledger.closed }
{}

/// If no bytes wait on a connection, these bytes become due there without memory: a reply of a status alone,
/// which reports to a client that memory is refused; the head that refuses a request; the interim head that asks a
/// client to continue (RFC 9110, section 15.2.1); and one byte, which is an acknowledgement or a refusal of LPD
/// (RFC 1179, section 6).
pub fn last_words_are_kept()
    ensures status { (closes : Bool) (status : Status) (request : ℕ) → AreKept (http_status closes status request) }
    ensures own_status { (closes : Bool) (status : Status) (request : ℕ) → AreOwed (http_status closes status request) }
    ensures refusal { (refusal : HttpRejection) → AreOwed (refusal_head refusal) }
    ensures going_on { AreOwed continue_head }
    ensures byte { (byte : ℕ) → AreKept (byte ∷ []) }
    ensures own_byte { (byte : ℕ) → AreOwed (byte ∷ []) }
{}
