//! The event of a message, by its operation.
ghost use Rattle.std.specs.Prelude.{◌≡◌, IfOk, OnErr};
ghost use Rattle.ipp_codec.specs.Grammar.{IsGroup, IsMessage};
ghost use Rattle.ipp_codec.specs.Views.{group_shown, message_shown};
ghost use Rattle.ipp_operations.specs.Request.{job_attributes};
ghost use Rattle.ipp_operations.specs.Event.{is_complete, event_of_group, event_of};

use crate::attributes::{are_tagged, has};
use crate::job_creation::{asked_job_of, print_job_of, validate_job_of};
use crate::job_requests::{get_job_attributes_of, hold_job_of, job_request_of, send_document_of};
use crate::operation_attribute::{OperationAttribute, attributes_read};
use crate::printer_requests::{get_jobs_of, get_printer_attributes_of, printer_request_of};
use crate::request::{is_utf8, operation_group};
use crate::target::names_job;
use events::{Event, Status};
use ipp_codec::{GroupView, MessageView};
use octets::Pages;
use printer_objects::Operation;
use std::alloc::{AllocError, Global};

/// The event of a message and a document, or the status of the first check that fails.
pub(crate) fn event_of(
    alloc: Global,
    operation: Operation,
    message: &MessageView<'_>,
    document: &mut Pages,
) -> Result<Result<Event, Status>, AllocError>
    requires { IsMessage (message_shown message.now) }
    ensures event { IfOk result (λ event. event ≡ event_of operation (message_shown message.now) document.old) }
    ensures err { OnErr result (document.new ≡ document.old) }
{
    let Some(group) = operation_group(message) else {
        return Ok(Err(Status::BadRequest));
    };
    if !is_utf8(&group) {
        return Ok(Err(Status::CharsetNotSupported));
    }
    if !are_tagged(&group, attributes_read(operation)) {
        return Ok(Err(Status::BadRequest));
    }
    if !is_complete(operation, &group) {
        return Ok(Err(Status::BadRequest));
    }
    Ok(Ok(event_of_group(alloc, operation, message, &group, document)?))
}

/// Returns whether a request has the attributes that it must have: those of its job or its printer, and in a
/// Send-Document last-document.
fn is_complete(operation: Operation, group: &GroupView<'_>) -> bool
    ensures { result ≡ is_complete operation (group_shown group.now) }
{
    match operation {
        Operation::SendDocument => names_job(group) && has(group, OperationAttribute::LastDocument),
        Operation::CancelJob | Operation::GetJobAttributes => names_job(group),
        Operation::HoldJob | Operation::ReleaseJob => names_job(group),
        _ => has(group, OperationAttribute::PrinterUri),
    }
}

/// The event of a request that has passed all checks.
fn event_of_group(
    alloc: Global,
    operation: Operation,
    message: &MessageView<'_>,
    group: &GroupView<'_>,
    document: &mut Pages,
) -> Result<Event, AllocError>
    requires message { IsMessage (message_shown message.now) }
    requires group { IsGroup (group_shown group.now) }
    ensures event { IfOk result (λ event. event ≡ event_of_group operation (group_shown group.now) (job_attributes (message_shown message.now)) document.old) }
    ensures err { OnErr result (document.new ≡ document.old) }
{
    Ok(match operation {
        Operation::PrintJob => Event::PrintJob(print_job_of(alloc, message, group, document)?),
        Operation::ValidateJob => Event::ValidateJob(validate_job_of(alloc, message, group)?),
        Operation::CreateJob => Event::CreateJob(asked_job_of(alloc, message, group)?),
        Operation::SendDocument => Event::SendDocument(send_document_of(alloc, group, document)?),
        Operation::CancelJob => Event::CancelJob(job_request_of(alloc, group)?),
        Operation::GetJobAttributes => {
            Event::GetJobAttributes(get_job_attributes_of(alloc, group)?)
        }
        Operation::GetJobs => Event::GetJobs(get_jobs_of(alloc, group)?),
        Operation::GetPrinterAttributes => {
            Event::GetPrinterAttributes(get_printer_attributes_of(alloc, group)?)
        }
        Operation::HoldJob => Event::HoldJob(hold_job_of(alloc, group)?),
        Operation::ReleaseJob => Event::ReleaseJob(job_request_of(alloc, group)?),
        Operation::PausePrinter => Event::PausePrinter(printer_request_of(alloc, group)?),
        Operation::ResumePrinter => Event::ResumePrinter(printer_request_of(alloc, group)?),
    })
}
