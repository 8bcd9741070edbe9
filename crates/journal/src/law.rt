//! The laws of turns of which only some calls pass, as the contracts of functions that do nothing.
ghost use Rattle.std.specs.Prelude.{◌≡◌, ◌++◌, ℕ, List, [], ◌∷◌};
ghost use Rattle.server.specs.Polls.{Happening};
ghost use Rattle.server.specs.Ledger.{Ledger};
ghost use Rattle.server.specs.Turn.{Trace, Turned};
ghost use Rattle.server.specs.Closing.{NoneBroken};
ghost use Rattle.journal.specs.Passing.{calls_in, IsQuiet, AreOutward, AreLost};
ghost use Rattle.journal.specs.File.{IsTurnText, IsFile};
ghost use Rattle.journal.specs.Laws.{TurnsUnticked, AreDue, WaitingStay, NoneBegins};

/// A turn changes nothing if no tick is due in it, each of its calls would have to wait or accepts no connection,
/// and the observer is not notified. A journal leaves out such turns.
pub fn quiet_turns_change_nothing()
    ensures { (moment : ℕ) (old new : Ledger) (hs : List Happening) → TurnsUnticked moment old hs new → IsQuiet hs → new ≡ old }
{}

/// In a turn without a tick in which nothing comes, and nothing more is sent once a connection was closed or a
/// write ended or failed, all bytes that are sent were due before the turn.
pub fn sent_bytes_were_due()
    ensures { (moment : ℕ) (old new : Ledger) (hs : List Happening) → TurnsUnticked moment old hs new → AreOutward (calls_in hs) → AreDue old (calls_in hs) }
{}

/// In a turn without a tick in which each connection is lost and no job begins, each job that waits stays as it is.
/// No connection is broken before the turn: a closing at its beginning may be followed by a dispatch that is refused
/// memory, and then by a tick, which aborts the jobs whose documents stopped coming.
pub fn lost_connections_leave_waiting_jobs()
    ensures { (moment : ℕ) (old new : Ledger) (hs : List Happening) → TurnsUnticked moment old hs new → NoneBroken old → AreLost (calls_in hs) → NoneBegins hs → WaitingStay old.core new.core }
{}

/// The text of a turn after the file of a trace is the file of the trace that ends with this turn.
pub fn turns_append_to_files()
    ensures { (trace : Trace) (file : List ℕ) (moment : ℕ) (hs : List Happening) (text : List ℕ) → IsFile trace file → IsTurnText moment (calls_in hs) text → IsFile (trace ++ Turned moment hs ∷ []) (file ++ text) }
{}
