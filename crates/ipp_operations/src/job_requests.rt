//! The fields of a request about one job.
ghost use Rattle.std.specs.Prelude.{◌≡◌, IfOk, OnErr};
ghost use Rattle.ipp_codec.specs.Grammar.{IsGroup};
ghost use Rattle.ipp_codec.specs.Views.{group_shown};
ghost use Rattle.ipp_operations.specs.JobRequests.{job_request_of, send_document_of, hold_until_of, hold_job_of, get_job_attributes_of};

use crate::attributes::{truth_of, value_of};
use crate::copied::as_it_came;
use crate::job_creation::form_of;
use crate::operation_attribute::OperationAttribute;
use crate::request::user_of;
use crate::requested::requested_of;
use crate::target::job_target;
use base_types::Hold;
use events::{GetJobAttributes, HoldJob, HoldUntil, JobRequest, SendDocument};
use ipp_codec::GroupView;
use octets::{Octets, Pages};
use std::alloc::{AllocError, Global};

/// The job of a request, and the user who sends it. The only error is out of memory.
pub(crate) fn job_request_of(alloc: Global, group: &GroupView<'_>) -> Result<JobRequest, AllocError>
    ensures { IfOk result (λ request. request ≡ job_request_of (group_shown group.now)) }
{
    Ok(JobRequest {
        target: job_target(alloc, group)?,
        user: user_of(alloc, group)?,
    })
}

/// The fields of a Send-Document. They take the document, unless memory is refused.
pub(crate) fn send_document_of(
    alloc: Global,
    group: &GroupView<'_>,
    document: &mut Pages,
) -> Result<SendDocument, AllocError>
    ensures request { IfOk result (λ request. request ≡ send_document_of (group_shown group.now) document.old) }
    ensures err { OnErr result (document.new ≡ document.old) }
{
    let job = job_request_of(alloc, group)?;
    let form = form_of(alloc, group)?;
    let octets = Octets::take(alloc, document)?;
    Ok(SendDocument {
        job,
        form,
        octets,
        last: truth_of(group, OperationAttribute::LastDocument),
    })
}

/// The hold that a Hold-Job asks for. The only error is out of memory.
fn hold_until_of(alloc: Global, group: &GroupView<'_>) -> Result<HoldUntil, AllocError>
    requires { IsGroup (group_shown group.now) }
    ensures { IfOk result (λ until. until ≡ hold_until_of (group_shown group.now)) }
{
    let which = OperationAttribute::JobHoldUntil;
    let Some(value) = value_of(group, which) else {
        return Ok(HoldUntil::Indefinite);
    };
    match Hold::of_keyword(value.bytes()) {
        Some(Hold::NoHold) => Ok(HoldUntil::NoHold),
        Some(Hold::Indefinite) => Ok(HoldUntil::Indefinite),
        None => Ok(HoldUntil::Unsupported(as_it_came(alloc, group, which)?)),
    }
}

/// The fields of a Hold-Job. The only error is out of memory.
pub(crate) fn hold_job_of(alloc: Global, group: &GroupView<'_>) -> Result<HoldJob, AllocError>
    requires { IsGroup (group_shown group.now) }
    ensures { IfOk result (λ request. request ≡ hold_job_of (group_shown group.now)) }
{
    Ok(HoldJob {
        job: job_request_of(alloc, group)?,
        until: hold_until_of(alloc, group)?,
    })
}

/// The fields of a Get-Job-Attributes. The only error is out of memory.
pub(crate) fn get_job_attributes_of(
    alloc: Global,
    group: &GroupView<'_>,
) -> Result<GetJobAttributes, AllocError>
    ensures { IfOk result (λ request. request ≡ get_job_attributes_of (group_shown group.now)) }
{
    Ok(GetJobAttributes {
        target: job_target(alloc, group)?,
        requested: requested_of(alloc, group, &[b"all"])?,
    })
}
