//! The fields of a request for a new job: Print-Job, Validate-Job and Create-Job.
ghost use Rattle.std.specs.Prelude.{◌≡◌, IfOk, OnErr};
ghost use Rattle.ipp_codec.specs.Grammar.{IsMessage};
ghost use Rattle.ipp_codec.specs.Views.{group_shown, message_shown};
ghost use Rattle.ipp_operations.specs.JobCreation.{asked_job_of, form_of, print_job_of, validate_job_of};
ghost use Rattle.ipp_operations.specs.Request.{job_attributes};

use crate::attributes::{bytes_of, name_or, number_of, truth_of};
use crate::operation_attribute::OperationAttribute;
use crate::request::{job_attributes, user_of};
use crate::target::printer_target;
use events::{DocumentForm, JobCreation, PrintJob, ValidateJob};
use ipp_codec::{GroupView, MessageView};
use octets::{Octets, Pages};
use std::alloc::{AllocError, Global};

/// The requested job, with the message's job group as its template. The only error is out of memory.
pub(crate) fn asked_job_of(
    alloc: Global,
    message: &MessageView<'_>,
    group: &GroupView<'_>,
) -> Result<JobCreation, AllocError>
    requires { IsMessage (message_shown message.now) }
    ensures { IfOk result (λ job. job ≡ asked_job_of (group_shown group.now) (job_attributes (message_shown message.now))) }
{
    Ok(JobCreation {
        target: printer_target(alloc, group)?,
        user: user_of(alloc, group)?,
        name: name_or(alloc, group, OperationAttribute::JobName, b"untitled")?,
        impressions: number_of(group, OperationAttribute::JobImpressions),
        fidelity: truth_of(group, OperationAttribute::IppAttributeFidelity),
        template: job_attributes(alloc, message)?,
    })
}

/// The form in which the document is sent. The only error is out of memory.
pub(crate) fn form_of(alloc: Global, group: &GroupView<'_>) -> Result<DocumentForm, AllocError>
    ensures { IfOk result (λ form. form ≡ form_of (group_shown group.now)) }
{
    Ok(DocumentForm {
        compression: bytes_of(alloc, group, OperationAttribute::Compression)?,
        format: bytes_of(alloc, group, OperationAttribute::DocumentFormat)?,
    })
}

/// The fields of a Print-Job: those of a Validate-Job, and the document, which they take unless memory is
/// refused.
pub(crate) fn print_job_of(
    alloc: Global,
    message: &MessageView<'_>,
    group: &GroupView<'_>,
    document: &mut Pages,
) -> Result<PrintJob, AllocError>
    requires { IsMessage (message_shown message.now) }
    ensures request { IfOk result (λ request. request ≡ print_job_of (group_shown group.now) (job_attributes (message_shown message.now)) document.old) }
    ensures err { OnErr result (document.new ≡ document.old) }
{
    let ValidateJob { job, form } = validate_job_of(alloc, message, group)?;
    let octets = Octets::take(alloc, document)?;
    Ok(PrintJob { job, form, octets })
}

/// The fields of a Validate-Job. The bytes after its attributes are ignored. The only error is out of
/// memory.
pub(crate) fn validate_job_of(
    alloc: Global,
    message: &MessageView<'_>,
    group: &GroupView<'_>,
) -> Result<ValidateJob, AllocError>
    requires { IsMessage (message_shown message.now) }
    ensures { IfOk result (λ request. request ≡ validate_job_of (group_shown group.now) (job_attributes (message_shown message.now))) }
{
    Ok(ValidateJob {
        job: asked_job_of(alloc, message, group)?,
        form: form_of(alloc, group)?,
    })
}
