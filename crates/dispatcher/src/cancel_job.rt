//! The step of a Cancel-Job (RFC 8011, section 4.3.3).
ghost use Rattle.std.specs.Prelude.{◌≡◌, ◌≢◌, ◌≤◌, [], IfOk, IsOk, IsErr, OnErr, None};
ghost use Rattle.print_room.specs.Jobs.{canceling_refusal};
ghost use Rattle.dispatcher.specs.CancelJob.{CancelsIt, CancelsJob, canceled_of, cancels_of};

use crate::answering::refuse;
use crate::checks::{Rejection, named_job, refused_change};
use base_types::{JobId, Moment, Text};
use events::{Cancel, Effects, JobRequest};
use print_room::PrintRoom;
use std::alloc::{AllocError, Global};

/// Cancels a job, or responds with the rejection. Memory is taken only for a cancel of which a device is notified.
pub(crate) fn cancel_job(
    alloc: Global,
    room: &mut PrintRoom,
    request: &JobRequest,
    now: Moment,
) -> Result<Effects, AllocError>
    requires { room.old.last ≤ now }
    ensures ok { IfOk result (λ effects. CancelsJob now request.now room.old effects room.new) }
    ensures err { OnErr result (room.new ≡ room.old) }
    ensures light { IsErr (canceled_of request.now room.old) → IsOk result }
{
    match canceled_of(alloc, room, request) {
        Ok(id) => cancel(alloc, room, id, &request.user, now),
        Err(refusal) => Ok(refuse(alloc, room, refusal, now)),
    }
}

/// The job to cancel, or the rejection of the first check that fails.
fn canceled_of(alloc: Global, room: &PrintRoom, request: &JobRequest) -> Result<JobId, Rejection>
    ensures ok { result ≡ canceled_of request.now room.now }
    ensures free { IfOk result (λ id. canceling_refusal id request.now.user room.now ≡ None) }
{
    let job = named_job(alloc, room, &request.target)?;
    match room.admits_cancel(job.id, &request.user) {
        Ok(()) => Ok(job.id),
        Err(cause) => Err(refused_change(alloc, cause)),
    }
}

/// Cancels a job that passed the checks, with a cancel for the device that has it.
fn cancel(
    alloc: Global,
    room: &mut PrintRoom,
    id: JobId,
    name: &Text,
    now: Moment,
) -> Result<Effects, AllocError>
    requires later { room.old.last ≤ now }
    requires free { canceling_refusal id name.now room.old ≡ None }
    ensures ok { IfOk result (λ effects. CancelsIt now room.old name.now id effects room.new) }
    ensures err { OnErr result (room.new ≡ room.old) }
{
    let cancels = cancels_of(alloc, room, id)?;
    let _canceled = room.cancel(id, name, now);
    Ok(Effects::canceled(alloc, cancels))
}

/// The cancel for the device that has the job, if a device has it. The only error is out of memory.
pub(crate) fn cancels_of(
    alloc: Global,
    room: &PrintRoom,
    job: JobId,
) -> Result<Vec<Cancel>, AllocError>
    ensures ok { IfOk result (λ cancels. cancels.items ≡ cancels_of job room.now) }
    ensures err { OnErr result (cancels_of job room.now ≢ []) }
{
    let mut cancels = Vec::new(alloc);
    if let Some(device) = room.device_of(job) {
        cancels.push(Cancel { job, device })?;
    }
    Ok(cancels)
}
