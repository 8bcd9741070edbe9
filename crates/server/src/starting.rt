//! The bytes of the jobs that begin.
ghost use Rattle.std.specs.Prelude.{◌≡◌};
ghost use Rattle.connections.specs.Outgoing.{bytes_of};
ghost use Rattle.server.specs.Ledger.{job_bytes};
ghost use Rattle.server.specs.Happening.{Starts, StartsAll};
ghost use Rattle.server.specs.Refinement.{ReportsAmong};

use crate::due::notify;
use base_types::JobId;
use connections::table::{enqueue, key_of};
use connections::{Connection, Outgoing, OutgoingJob};
use dispatcher::{Core, Observer, Started};
use plan_prices::Planner;
use slab::Slab;

/// Enqueues the bytes of the jobs that began with the last plan, by device. Returns whether memory was
/// refused.
pub(crate) fn start_all<P: Planner + Drop, N: Observer>(
    core: &Core<P>,
    connections: &mut Slab<Connection>,
    notes: &mut N,
) -> bool
    ensures { ReportsAmong N.notified StartsAll core.now notes.old connections.old notes.new connections.new result }
{
    let mut refused = false;
    for started in core.begun() {
        refused |= start(core, connections, *started, notes);
    }
    refused
}

/// Enqueues the bytes of a job that begins on the device's connection, if the device has one. Returns whether
/// memory was refused.
fn start<P: Planner + Drop, N: Observer>(
    core: &Core<P>,
    connections: &mut Slab<Connection>,
    started: Started,
    notes: &mut N,
) -> bool
    ensures { ReportsAmong N.notified (Starts started) core.now notes.old connections.old notes.new connections.new result }
{
    let Some(key) = key_of(connections, started.device) else {
        return false;
    };
    let broke = enqueue(connections, key, &job_message(core, started.job));
    notify(broke, notes)
}

/// The message that sends the job of an id to a device.
fn job_message<P: Planner + Drop>(core: &Core<P>, id: JobId) -> Outgoing<'_>
    ensures { bytes_of result ≡ job_bytes core.now id }
{
    let Some(spooled) = core.spooled(id) else {
        return Outgoing::Bytes(&[]);
    };
    let job = spooled.job();
    Outgoing::Job(OutgoingJob::new(id, job.octets, &job.needs, spooled.documents()))
}
