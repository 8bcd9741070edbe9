//! The jobs that a client removes, and their removal.
ghost use Rattle.std.specs.Prelude.{◌≡◌, ◌≤◌, ◌&&◌, None, find, option_map, option_to_list};
ghost use Rattle.std.specs.List.{list_any};
ghost use Rattle.std.specs.Option.{option_copied};
ghost use Rattle.spool.specs.Calls.{cancel_refusal};
ghost use Rattle.spool.specs.Jobs.{spooled_at};
ghost use Rattle.spool.specs.Spool.{IsSpool};
ghost use Rattle.print_room.specs.Jobs.{canceling, canceling_each};
ghost use Rattle.listings.specs.Removal.{active_job, is_active, is_named, is_root, may_remove, named_jobs, names_for, removed_from, removed_jobs, remover};

use crate::queue::queue_of;
use base_types::{JobId, Moment, PrinterId, Text};
use events::RemoveJobs;
use job_objects::Job;
use print_room::PrintRoom;
use printer_objects::keeps_busy;
use spool::{Requester, SpooledJob};
use text::decimal;

/// Returns whether an agent is root.
fn is_root(agent: &Text) -> bool
    ensures { result ≡ is_root agent.now }
{
    agent.as_bytes() == b"root".as_slice()
}

/// Returns whether an agent may remove a job: root any job, others their own.
fn may_remove(agent: &Text, job: &Job) -> bool
    ensures { result ≡ may_remove agent.now job.now }
{
    is_root(agent) || agent.as_bytes() == job.owner.as_bytes()
}

/// Returns whether an operand of an agent names a job: by the job's id if the operand is digits alone, else
/// by its owner, which only root may use.
fn names_for(agent: &Text, operand: &Text, job: &Job) -> bool
    ensures { result ≡ names_for agent.now operand.now job.now }
{
    match decimal(operand.as_bytes()) {
        Some(number) => number == job.id.number(),
        None => is_root(agent) && operand.as_bytes() == job.owner.as_bytes(),
    }
}

/// Returns whether one of the operands names a job for an agent.
fn is_one_of(agent: &Text, operands: &[Text], job: &Job) -> bool
    ensures { result ≡ list_any (λ operand. names_for agent.now operand job.now) operands.now }
{
    operands
        .iter()
        .any(|operand| names_for(agent, operand, job))
}

/// Returns whether a removal from a printer names an unfinished job, by its id or by its owner.
pub fn is_named(printer: PrinterId, request: &RemoveJobs, job: &Job) -> bool
    ensures { result ≡ is_named printer request.now job.now }
{
    job.needs.printer == printer
        && !job.state.is_finished()
        && may_remove(&request.agent, job)
        && is_one_of(&request.agent, &request.operands, job)
}

/// Returns whether a device has the job for a printer, running or stopped, and the agent may remove it.
fn is_active(printer: PrinterId, agent: &Text, job: &Job) -> bool
    ensures { result ≡ is_active printer agent.now job.now }
{
    keeps_busy(job, printer) && may_remove(agent, job)
}

/// The first active job.
fn find_active<'a>(
    jobs: &'a [SpooledJob],
    printer: PrinterId,
    agent: &Text,
) -> Option<&'a SpooledJob>
    ensures { option_copied result ≡ find (λ s. is_active printer agent.now s.job) jobs.now }
{
    jobs.iter()
        .find(|spooled| is_active(printer, agent, spooled.job()))
}

/// The job that a removal without operands removes from a printer: the job of the least id that a running or
/// stopped device has and that the agent may remove.
pub fn active_job(room: &PrintRoom, printer: PrinterId, agent: &Text) -> Option<JobId>
    ensures value { result ≡ active_job printer agent.now room.now }
    ensures kept { IsSpool room.now.spool }
{
    let spooled = find_active(room.spool().jobs(), printer, agent)?;
    Some(spooled.job().id)
}

/// The first job that a removal names.
fn find_named<'a>(
    jobs: &'a [SpooledJob],
    printer: PrinterId,
    request: &RemoveJobs,
) -> Option<&'a SpooledJob>
    ensures { option_copied result ≡ find (λ s. is_named printer request.now s.job) jobs.now }
{
    jobs.iter()
        .find(|spooled| is_named(printer, request, spooled.job()))
}

/// The id of the first job that a removal names.
fn first_named(room: &PrintRoom, printer: PrinterId, request: &RemoveJobs) -> Option<JobId>
    ensures value { result ≡ option_map (λ s. s.job.id) (find (λ s. is_named printer request.now s.job) room.now.spool.jobs) }
    ensures kept { IsSpool room.now.spool }
{
    let spooled = find_named(room.spool().jobs(), printer, request)?;
    Some(spooled.job().id)
}

/// Removes jobs, at a moment that isn't before the last one: those that the operands name, by rising id, or
/// the active job if there are no operands. Nothing is removed from an unknown queue. The call takes no
/// memory.
///
/// A device that has such a job keeps it until it reports that it is done.
pub fn remove(room: &mut PrintRoom, request: &RemoveJobs, now: Moment)
    requires { room.old.last ≤ now }
    ensures { room.new ≡ canceling_each now request.now.agent (removed_jobs request.now room.old) room.old }
{
    match queue_of(room, &request.queue) {
        Some(printer) => remove_from(room, printer, request, now),
        None => room.advance(now),
    }
}

/// Removes jobs from a printer.
fn remove_from(room: &mut PrintRoom, printer: PrinterId, request: &RemoveJobs, now: Moment)
    requires { room.old.last ≤ now }
    ensures { room.new ≡ canceling_each now request.now.agent (removed_from printer request.now room.old) room.old }
{
    if request.operands.is_empty() {
        remove_active(room, printer, &request.agent, now);
    } else {
        remove_named(room, printer, request, now);
    }
}

/// Removes the active job.
fn remove_active(room: &mut PrintRoom, printer: PrinterId, agent: &Text, now: Moment)
    requires { room.old.last ≤ now }
    ensures { room.new ≡ canceling_each now agent.now (option_to_list (active_job printer agent.now room.old)) room.old }
{
    match active_job(room, printer, agent) {
        Some(id) => cancel(room, id, agent, now),
        None => room.advance(now),
    }
}

/// Removes each job that the operands name.
fn remove_named(room: &mut PrintRoom, printer: PrinterId, request: &RemoveJobs, now: Moment)
    requires { room.old.last ≤ now }
    ensures { room.new ≡ canceling_each now request.now.agent (named_jobs printer request.now room.old) room.old }
{
    while let Some(id) = first_named(room, printer, request) {
        cancel(room, id, &request.agent, now);
    }
    room.advance(now);
}

/// Cancels an unfinished job that the agent may remove.
fn cancel(room: &mut PrintRoom, id: JobId, agent: &Text, now: Moment)
    requires later { room.old.last ≤ now }
    requires free { cancel_refusal (remover agent.now) (spooled_at id room.old.spool.jobs) ≡ None }
    ensures { room.new ≡ canceling now id agent.now room.old }
{
    let is_operator = is_root(agent);
    let requester = Requester {
        name: agent,
        is_operator,
    };
    let _canceled = room.cancel_for(id, &requester, now);
}
