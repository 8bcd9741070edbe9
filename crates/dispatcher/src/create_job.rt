//! The step of a Create-Job (RFC 8011, section 4.2.4): it is rejected by the first check that fails, or makes
//! a job whose documents are still to come.
ghost use Rattle.std.specs.Prelude.{◌≡◌, ◌≤◌, [], IfOk, IsOk, IsErr, OnErr, None};
ghost use Rattle.spool.specs.Calls.{new_refusal};
ghost use Rattle.dispatcher.specs.CreateJob.{CreatesJob, CreatesIt, created_of};

use crate::answering::{refuse, taken_with};
use crate::checks::{Rejection, named_printer};
use crate::submission::{Accepted, checked_job, groups_of};
use base_types::Moment;
use events::{Effects, JobCreation};
use print_room::PrintRoom;
use std::alloc::{AllocError, Global};

/// Makes the job of a Create-Job request, or responds with the rejection. The only error is out of memory.
pub(crate) fn create_job(
    alloc: Global,
    room: &mut PrintRoom,
    request: JobCreation,
    now: Moment,
) -> Result<Effects, AllocError>
    requires { room.old.last ≤ now }
    ensures ok { IfOk result (λ effects. CreatesJob now request room.old effects room.new) }
    ensures err { OnErr result (room.new ≡ room.old) }
    ensures light { IsErr (created_of request now room.old) → IsOk result }
{
    match created_by(alloc, room, request, now)? {
        Ok(accepted) => create(alloc, room, accepted, now),
        Err(refusal) => Ok(refuse(alloc, room, refusal, now)),
    }
}

/// Makes a job that passed the checks. The response has its URI, id and state.
fn create(
    alloc: Global,
    room: &mut PrintRoom,
    accepted: Accepted,
    now: Moment,
) -> Result<Effects, AllocError>
    requires later { room.old.last ≤ now }
    requires empty { accepted.job.documents ≡ [] }
    requires free { new_refusal room.old.spool [] ≡ None }
    ensures ok { IfOk result (λ effects. CreatesIt now room.old accepted effects room.new) }
    ensures err { OnErr result (room.new ≡ room.old) }
{
    let Accepted { job, unsupported } = accepted;
    let status = taken_with(&unsupported);
    let groups = groups_of(alloc, room, &job, true)?;
    match room.create(job, now) {
        Ok(_) => Ok(Effects::answered(alloc, status, unsupported, groups)),
        Err(_) => Err(AllocError),
    }
}

/// The accepted job of a request, or the rejection of the first check that fails. The only outer error is out
/// of memory.
fn created_by(
    alloc: Global,
    room: &PrintRoom,
    request: JobCreation,
    now: Moment,
) -> Result<Result<Accepted, Rejection>, AllocError>
    ensures ok { IfOk result (λ made. made ≡ created_of request now room.now) }
    ensures err { OnErr result (IsOk (created_of request now room.now)) }
    ensures free { IfOk result (λ made. IfOk made (λ accepted. new_refusal room.now.spool [] ≡ None)) }
    ensures empty { IfOk result (λ made. IfOk made (λ accepted. accepted.job.documents ≡ [])) }
{
    match named_printer(alloc, room, &request.target) {
        Ok(printer) => checked_job(alloc, room, &printer, request, 0, now),
        Err(refusal) => Ok(Err(refusal)),
    }
}
