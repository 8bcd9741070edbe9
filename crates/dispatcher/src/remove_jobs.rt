//! The step of an LPD client's request to remove jobs from a queue (RFC 1179, section 5.5).
ghost use Rattle.std.specs.Prelude.{◌≡◌, ◌≢◌, ◌≤◌, ◌++◌, [], IfOk, OnOk, IsOk, OnErr, option_to_list};
ghost use Rattle.listings.specs.Removal.{active_job, named_jobs};
ghost use Rattle.dispatcher.specs.RemoveJobs.{RemovesJobs, cancels_if_named, cancels_of_each, due_cancels};

use crate::cancel_job::cancels_of;
use base_types::{Moment, PrinterId, Text};
use events::{Cancel, Effects, RemoveJobs};
use job_objects::Job;
use listings::{active_job, is_named, queue_of, remove};
use print_room::PrintRoom;
use std::alloc::{AllocError, Global};

/// Removes jobs. Memory is taken only for a cancel of which a device is notified.
pub(crate) fn remove_jobs(
    alloc: Global,
    room: &mut PrintRoom,
    request: &RemoveJobs,
    now: Moment,
) -> Result<Effects, AllocError>
    requires { room.old.last ≤ now }
    ensures ok { IfOk result (λ effects. RemovesJobs now request.now room.old effects room.new) }
    ensures err { OnErr result (room.new ≡ room.old) }
    ensures light { due_cancels request.now room.old ≡ [] → IsOk result }
{
    let cancels = due_cancels(alloc, room, request)?;
    remove(room, request, now);
    Ok(Effects::removed(alloc, cancels))
}

/// The cancels for the removed jobs. The only error is out of memory.
fn due_cancels(
    alloc: Global,
    room: &PrintRoom,
    request: &RemoveJobs,
) -> Result<Vec<Cancel>, AllocError>
    ensures ok { IfOk result (λ cancels. cancels.items ≡ due_cancels request.now room.now) }
    ensures err { OnErr result (due_cancels request.now room.now ≢ []) }
{
    let Some(printer) = queue_of(room, &request.queue) else {
        return Ok(Vec::new(alloc));
    };
    if request.operands.is_empty() {
        cancels_of_active(alloc, room, printer, &request.agent)
    } else {
        cancels_of_named(alloc, room, printer, request)
    }
}

/// The cancel for the job that is removed if the request names no job.
fn cancels_of_active(
    alloc: Global,
    room: &PrintRoom,
    printer: PrinterId,
    agent: &Text,
) -> Result<Vec<Cancel>, AllocError>
    ensures ok { IfOk result (λ cancels. cancels.items ≡ cancels_of_each (option_to_list (active_job printer agent.now room.now)) room.now) }
    ensures err { OnErr result (cancels_of_each (option_to_list (active_job printer agent.now room.now)) room.now ≢ []) }
{
    match active_job(room, printer, agent) {
        Some(id) => cancels_of(alloc, room, id),
        None => Ok(Vec::new(alloc)),
    }
}

/// The cancels for the jobs that the request names.
fn cancels_of_named(
    alloc: Global,
    room: &PrintRoom,
    printer: PrinterId,
    request: &RemoveJobs,
) -> Result<Vec<Cancel>, AllocError>
    ensures ok { IfOk result (λ cancels. cancels.items ≡ cancels_of_each (named_jobs printer request.now room.now) room.now) }
    ensures err { OnErr result (cancels_of_each (named_jobs printer request.now room.now) room.now ≢ []) }
{
    let mut cancels = Vec::new(alloc);
    for spooled in room.spool().jobs() {
        add_cancel(&mut cancels, room, printer, request, spooled.job())?;
    }
    Ok(cancels)
}

/// Appends the cancel for a job, if the request names the job and a device has it.
fn add_cancel(
    cancels: &mut Vec<Cancel>,
    room: &PrintRoom,
    printer: PrinterId,
    request: &RemoveJobs,
    job: &Job,
) -> Result<(), AllocError>
    ensures ok { OnOk result (cancels.new.items ≡ cancels.old.items ++ cancels_if_named printer request.now room.now job.now) }
    ensures err { OnErr result (cancels_if_named printer request.now room.now job.now ≢ []) }
{
    if is_named(printer, request, job) {
        if let Some(device) = room.device_of(job.id) {
            cancels.push(Cancel {
                job: job.id,
                device,
            })?;
        }
    }
    Ok(())
}
