//! The step of a Print-Job (RFC 8011, section 4.2.1): it is rejected by the first check that fails, or its
//! job is taken.
ghost use Rattle.std.specs.Prelude.{◌≡◌, ◌≤◌, ◌∷◌, [], IfOk, IsOk, IsErr, OnErr, None};
ghost use Rattle.spool.specs.Calls.{new_refusal};
ghost use Rattle.dispatcher.specs.PrintJob.{PrintsJob, checked_of};

use crate::answering::{refuse, taken_with};
use crate::checks::{Rejection, checked_format, named_printer};
use crate::submission::{Accepted, checked_job, groups_of};
use base_types::{Moment, Text};
use events::{Effects, PrintJob};
use octets::{Document, Octets};
use print_room::PrintRoom;
use std::alloc::{AllocError, Global};

/// Takes the job of a Print-Job request, or responds with the rejection. The response to a job that is taken has its
/// URI, id and state. The only error is out of memory.
pub(crate) fn print_job(
    alloc: Global,
    room: &mut PrintRoom,
    request: PrintJob,
    now: Moment,
) -> Result<Effects, AllocError>
    requires { room.old.last ≤ now }
    ensures ok { IfOk result (λ effects. PrintsJob now request room.old effects room.new) }
    ensures err { OnErr result (room.new ≡ room.old) }
    ensures light { IsErr (checked_of request now room.old) → IsOk result }
{
    let Accepted { job, unsupported } = match checked_request(alloc, room, request, now)? {
        Ok(accepted) => accepted,
        Err(refusal) => return Ok(refuse(alloc, room, refusal, now)),
    };
    let status = taken_with(&unsupported);
    let groups = groups_of(alloc, room, &job, false)?;
    match room.submit(job, now) {
        Ok(_) => Ok(Effects::answered(alloc, status, unsupported, groups)),
        Err(_) => Err(AllocError),
    }
}

/// The accepted job of a request, or the rejection of the first check that fails. The only outer error is out
/// of memory.
fn checked_request(
    alloc: Global,
    room: &PrintRoom,
    request: PrintJob,
    now: Moment,
) -> Result<Result<Accepted, Rejection>, AllocError>
    ensures ok { IfOk result (λ checked. checked ≡ checked_of request now room.now) }
    ensures err { OnErr result (IsOk (checked_of request now room.now)) }
    ensures free { IfOk result (λ checked. IfOk checked (λ accepted. new_refusal room.now.spool accepted.job.documents ≡ None)) }
{
    let printer = match named_printer(alloc, room, &request.job.target) {
        Ok(printer) => printer,
        Err(refusal) => return Ok(Err(refusal)),
    };
    let format = match checked_format(alloc, &printer.offer, &request.form) {
        Ok(format) => format,
        Err(refusal) => return Ok(Err(refusal)),
    };
    let PrintJob { job, octets, .. } = request;
    let Accepted {
        mut job,
        unsupported,
    } = match checked_job(alloc, room, &printer, job, octets.len(), now)? {
        Ok(accepted) => accepted,
        Err(refusal) => return Ok(Err(refusal)),
    };
    job.documents = one_document(alloc, format, octets)?;
    Ok(Ok(Accepted { job, unsupported }))
}

/// A list of one document of a format. The only error is out of memory.
fn one_document(alloc: Global, format: &Text, contents: Octets) -> Result<Vec<Document>, AllocError>
    ensures { IfOk result (λ documents. documents.items ≡ record { format = format.now; contents = contents } ∷ []) }
{
    let mut documents = Vec::with_capacity(alloc, 1)?;
    documents.push(Document {
        format: format.copied(alloc)?,
        contents,
    })?;
    Ok(documents)
}
