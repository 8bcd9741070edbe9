//! The bytes on each connection.
ghost use Rattle.std.specs.Prelude.{ℕ, [], List};
ghost use Rattle.print_room.specs.State.{State};
ghost use Rattle.server.specs.State.{EngineState};
ghost use Rattle.server.specs.Refinement.{IsAt};
ghost use Rattle.promises.specs.Answers.{AreAnswered};
ghost use Rattle.promises.specs.Calls.{Call, AreMade, IsAccounted};
ghost use Rattle.promises.specs.Carried.{NumbersDiffer, IsCarried};
ghost use Rattle.promises.specs.Delivered.{AreDelivered};
ghost use Rattle.promises.specs.Keyed.{SeenLeadsToOne};
ghost use Rattle.promises.specs.OneLedger.{LeadsToOne};
ghost use Rattle.promises.specs.Orders.{AreSent};
ghost use Rattle.promises.specs.Others.{SparesAll};
ghost use Rattle.server.specs.Ledger.{Ledger, opening_ledger};
ghost use Rattle.server.specs.Turn.{Trace, Runs};

use dispatcher::Observer;
use wires::Wire;

/// A trace leads to one ledger. The calls of the wire and their answers, the observer's notes (the plans
/// among them), and the choices in between determine the state of the core, and for each connection the bytes
/// that were read, are due and were taken.
pub fn one_ledger()
    ensures { LeadsToOne }
{
    dispatcher::one_step();
    dispatcher::same_needs();
    connections::one_ask();
    ipp_operations::one_asked();
}

/// The core's events of a trace are one run. The observer's notes of it are exactly those of its parts, turn
/// by turn and call by call. On each open connection of a device that isn't broken, the bytes due are the
/// run's orders for the device since it last gave its name: the line of each cancel, and for each job that
/// began on the device the line of the job, and its documents as they were when the job began. Each HELLO in a
/// turn gives a name, and no other event does. On a connection that broke, a prefix of the orders is due.
pub fn devices_are_sent_their_orders()
    ensures { (opening : State) (trace : Trace) (ledger : Ledger) → Runs trace (opening_ledger opening) ledger → AreSent opening trace ledger }
{}

/// The core's events of a trace are one run. For each device the reports among the events that came in turns
/// are the reports on its connections, one connection after another. An ended connection has the device's
/// name, each further report in order, and then that the device is gone, since the connection was closed or
/// the device had another connection. The reports of the open connection come last. The connections that
/// ended are exactly the closed connections of the device, in the order of their ends, and the connections
/// that it gave up by another connection. The name is that of the device in the settings. The reports of a
/// connection are a prefix of those that its bytes contain: all of them, unless the connection is draining or
/// broken.
pub fn reports_are_delivered()
    ensures { (opening : State) (trace : Trace) (ledger : Ledger) → Runs trace (opening_ledger opening) ledger → AreDelivered opening trace ledger }
{}

/// The core's events of a trace, and the notes that memory was refused, are one run. The observer's notes of
/// it are exactly those of its parts, turn by turn and call by call. On each open connection of a client that
/// isn't broken, the bytes due are those of its acts, one after the other, from its first byte on: `100
/// Continue` if a head invites a body, an acknowledgement or a refusal, or the reply that the run gave to an
/// event that the connection asked for. The status 0x0505, and the byte 01 for a file or a job for which memory
/// was refused, each need a note of that on the connection of that number: for the event, for the reply to a
/// query, or for the file. The byte 01 for a fault needs a fault in the bytes read. The events that
/// the connection asked for, and these notes, are exactly those of its acts, in order. No act follows one
/// after which the connection drains. On a connection that broke, the same holds for the acts before. On each
/// connection, open or closed, the items acted on are a prefix of those that its bytes contain: on an open one
/// all of these, unless the connection is draining or broken.
pub fn clients_are_answered()
    ensures { (opening : State) (trace : Trace) (ledger : Ledger) → Runs trace (opening_ledger opening) ledger → AreAnswered opening trace ledger }
{}

/// Assume that the number of an open connection isn't given to another. Then on each open connection the
/// bytes due are those that the wire took on it since it was accepted, followed by those that wait. A
/// connection that is neither draining nor broken has read exactly the bytes that the wire brought. Both are
/// known from the calls of the wire alone.
pub fn due_was_carried()
    ensures { (opening : State) (trace : Trace) (ledger : Ledger) → Runs trace (opening_ledger opening) ledger → NumbersDiffer trace → IsCarried trace ledger }
{}

/// A read on one connection with all its results, a write and a closing are each a run of the core, and spare
/// the other connections. A client's connection is unchanged. On a device's connection only orders of the
/// run's events become due: lines of cancels, and lines and documents of jobs that began. It is closed only
/// for a cause: the observer was notified that memory for its orders was refused, or its input had ended and
/// the device gave its name again.
pub fn others_are_spared()
    ensures { (moment : ℕ) → SparesAll moment }
{}

/// For each answer of the wire and each refusal of memory: after any calls from the start of an engine on,
/// there is a trace of exactly these calls. It leads the wire and the observer to their present states, and
/// leads to a ledger that represents the engine. Hence on each open connection the bytes that the wire took
/// and those that wait are exactly the bytes due.
pub fn due_after_calls<W: Wire, N: Observer>()
    ensures { (opening : State) (calls : List Call) (u v : W × N) (old new : EngineState) → IsAt opening [] old → AreMade W.polled N.notified calls u old v new → IsAccounted W.polled N.notified opening calls u v new }
{}

/// From the start of an engine on, two traces lead to one ledger if the wire and the observer see them alike,
/// the accepted connections get the same keys in both, and no memory was refused. Hence the bytes due on each
/// connection are then determined by the calls of the wire with their answers, the observer's notes (the plans
/// among them), and these keys.
pub fn one_seen_ledger()
    ensures { SeenLeadsToOne }
{
    dispatcher::one_step();
    dispatcher::same_needs();
    connections::one_ask();
    ipp_operations::one_asked();
    http_front::some_parse();
    http_front::given_first();
    lpd::one_prefix();
    lpd::one_parse();
    device_link::one_prefix();
}
