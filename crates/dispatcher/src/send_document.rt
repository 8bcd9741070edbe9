//! The step of a Send-Document (RFC 8011, section 4.3.1): it is rejected by the first check that fails, or
//! the document is added to its job.
ghost use Rattle.std.specs.Prelude.{◌≡◌, ◌≤◌, ◌∷◌, [], IfOk, IsOk, IsErr, OnErr, None, length};
ghost use Rattle.print_room.specs.Jobs.{sending_refusal};
ghost use Rattle.dispatcher.specs.SendDocument.{SendsDocument, SendsIt, sent_group, sent_in_format, sent_to_printer, sent_to_job, sent_of};

use crate::answering::refuse;
use crate::checks::{
    NamedPrinter, Rejection, checked_format, named_job, printer_of_job, refused_change,
};
use base_types::{JobId, Moment, Text};
use events::{Effects, ResponseGroups, SendDocument, Status};
use job_objects::{Job, JobState, waiting_reasons};
use job_template::RequestAttributes;
use octets::Document;
use print_room::PrintRoom;
use printer_objects::created_job_attributes;
use std::alloc::{AllocError, Global};

/// A document that passed the checks: its job, its format, and the job's group after the step as the only
/// one.
#[derive(Drop)]
pub(crate) struct Sent {
    pub(crate) job: JobId,
    pub(crate) format: Text,
    pub(crate) groups: ResponseGroups,
}

/// Adds the document of a Send-Document request to its job, or responds with the rejection. The only error is
/// out of memory.
pub(crate) fn send_document(
    alloc: Global,
    room: &mut PrintRoom,
    request: SendDocument,
    now: Moment,
) -> Result<Effects, AllocError>
    requires { room.old.last ≤ now }
    ensures ok { IfOk result (λ effects. SendsDocument now request room.old effects room.new) }
    ensures err { OnErr result (room.new ≡ room.old) }
    ensures light { IsErr (sent_of request room.old) → IsOk result }
{
    match sent_by(alloc, room, &request)? {
        Ok(sent) => send(alloc, room, request, sent, now),
        Err(refusal) => Ok(refuse(alloc, room, refusal, now)),
    }
}

/// Adds a document that passed the checks. The response has the job as it is after the step.
fn send(
    alloc: Global,
    room: &mut PrintRoom,
    request: SendDocument,
    sent: Sent,
    now: Moment,
) -> Result<Effects, AllocError>
    requires later { room.old.last ≤ now }
    requires free { sending_refusal sent.job request.job.user (length request.octets) request.last room.old ≡ None }
    ensures ok { IfOk result (λ effects. SendsIt now room.old request sent effects room.new) }
    ensures err { OnErr result (room.new ≡ room.old) }
{
    let SendDocument {
        job: requested,
        octets,
        last,
        ..
    } = request;
    let Sent {
        job,
        format,
        groups,
    } = sent;
    let document = Document {
        format,
        contents: octets,
    };
    match room.add_document(job, &requested.user, document, last, now) {
        Ok(()) => {
            let unsupported = RequestAttributes::new(alloc);
            Ok(Effects::answered(alloc, Status::Ok, unsupported, groups))
        }
        Err(_) => Err(AllocError),
    }
}

/// The job and the format of a request's document, or the rejection of the first check that fails. The only
/// outer error is out of memory.
fn sent_by(
    alloc: Global,
    room: &PrintRoom,
    request: &SendDocument,
) -> Result<Result<Sent, Rejection>, AllocError>
    ensures ok { IfOk result (λ made. made ≡ sent_of request.now room.now) }
    ensures err { OnErr result (IsOk (sent_of request.now room.now)) }
    ensures free { IfOk result (λ made. IfOk made (λ sent. sending_refusal sent.job request.now.job.user (length request.now.octets) request.now.last room.now ≡ None)) }
{
    match named_job(alloc, room, &request.job.target) {
        Ok(job) => sent_to_job(alloc, room, job, request),
        Err(refusal) => Ok(Err(refusal)),
    }
}

/// The same, with a known job.
fn sent_to_job(
    alloc: Global,
    room: &PrintRoom,
    job: &Job,
    request: &SendDocument,
) -> Result<Result<Sent, Rejection>, AllocError>
    ensures ok { IfOk result (λ made. made ≡ sent_to_job request.now room.now job.now) }
    ensures err { OnErr result (IsOk (sent_to_job request.now room.now job.now)) }
    ensures free { IfOk result (λ made. IfOk made (λ sent. sending_refusal sent.job request.now.job.user (length request.now.octets) request.now.last room.now ≡ None)) }
{
    match printer_of_job(alloc, room, job) {
        Ok(printer) => sent_to_printer(alloc, room, job, &printer, request),
        Err(refusal) => Ok(Err(refusal)),
    }
}

/// The same, with a known job and printer.
fn sent_to_printer(
    alloc: Global,
    room: &PrintRoom,
    job: &Job,
    printer: &NamedPrinter<'_>,
    request: &SendDocument,
) -> Result<Result<Sent, Rejection>, AllocError>
    ensures ok { IfOk result (λ made. made ≡ sent_to_printer request.now room.now job.now printer.now) }
    ensures err { OnErr result (IsOk (sent_to_printer request.now room.now job.now printer.now)) }
    ensures free { IfOk result (λ made. IfOk made (λ sent. sending_refusal sent.job request.now.job.user (length request.now.octets) request.now.last room.now ≡ None)) }
{
    match checked_format(alloc, &printer.offer, &request.form) {
        Ok(format) => sent_in_format(alloc, room, job, format, request),
        Err(refusal) => Ok(Err(refusal)),
    }
}

/// The same, with a known job, printer and format.
fn sent_in_format(
    alloc: Global,
    room: &PrintRoom,
    job: &Job,
    format: &Text,
    request: &SendDocument,
) -> Result<Result<Sent, Rejection>, AllocError>
    ensures ok { IfOk result (λ made. made ≡ sent_in_format request.now room.now job.now format.now) }
    ensures err { OnErr result (IsOk (sent_in_format request.now room.now job.now format.now)) }
    ensures free { IfOk result (λ made. IfOk made (λ sent. sending_refusal sent.job request.now.job.user (length request.now.octets) request.now.last room.now ≡ None)) }
{
    let octets = request.octets.len();
    if let Err(cause) = room.admits_document(job.id, &request.job.user, octets, request.last) {
        return Ok(Err(refused_change(alloc, cause)));
    }
    let groups = sent_groups(alloc, room, job, request.last)?;
    let format = format.copied(alloc)?;
    Ok(Ok(Sent {
        job: job.id,
        format,
        groups,
    }))
}

/// The group of the job after the document: documents are still to come, unless this document was the last.
fn sent_groups(
    alloc: Global,
    room: &PrintRoom,
    job: &Job,
    last: bool,
) -> Result<ResponseGroups, AllocError>
    ensures { IfOk result (λ groups. groups ≡ sent_group room.now job.now last ∷ []) }
{
    let paused = room.is_paused(job.needs.printer);
    let state = JobState::waiting(!last, job.held);
    let reasons = waiting_reasons(!last, job.held, job.stranded, paused);
    let settings = room.settings();
    let group = created_job_attributes(alloc, &settings.uri_base, job.id, state, reasons)?;
    ResponseGroups::one(alloc, group)
}
