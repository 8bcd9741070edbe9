//! The fields of a request about a printer and its jobs.
ghost use Rattle.std.specs.Prelude.{◌≡◌, IfOk};
ghost use Rattle.ipp_codec.specs.Grammar.{IsGroup};
ghost use Rattle.ipp_codec.specs.Views.{group_shown};
ghost use Rattle.ipp_operations.specs.PrinterRequests.{printer_request_of, get_printer_attributes_of, which_of, limit_of, get_jobs_of};

use crate::attributes::{number_of, truth_of, value_of};
use crate::copied::as_it_came;
use crate::operation_attribute::OperationAttribute;
use crate::request::user_of;
use crate::requested::requested_of;
use crate::target::printer_target;
use events::{GetJobs, GetPrinterAttributes, PrinterRequest, WhichJobs};
use ipp_codec::GroupView;
use std::alloc::{AllocError, Global};

/// The printer of a request, and the user who sends it. The only error is out of memory.
pub(crate) fn printer_request_of(
    alloc: Global,
    group: &GroupView<'_>,
) -> Result<PrinterRequest, AllocError>
    ensures { IfOk result (λ request. request ≡ printer_request_of (group_shown group.now)) }
{
    Ok(PrinterRequest {
        target: printer_target(alloc, group)?,
        user: user_of(alloc, group)?,
    })
}

/// The fields of a Get-Printer-Attributes. The only error is out of memory.
pub(crate) fn get_printer_attributes_of(
    alloc: Global,
    group: &GroupView<'_>,
) -> Result<GetPrinterAttributes, AllocError>
    ensures { IfOk result (λ request. request ≡ get_printer_attributes_of (group_shown group.now)) }
{
    Ok(GetPrinterAttributes {
        target: printer_target(alloc, group)?,
        requested: requested_of(alloc, group, &[b"all"])?,
    })
}

/// The jobs that a Get-Jobs asks for. The only error is out of memory.
fn which_of(alloc: Global, group: &GroupView<'_>) -> Result<WhichJobs, AllocError>
    requires { IsGroup (group_shown group.now) }
    ensures { IfOk result (λ which. which ≡ which_of (group_shown group.now)) }
{
    let which = OperationAttribute::WhichJobs;
    let Some(value) = value_of(group, which) else {
        return Ok(WhichJobs::NotCompleted);
    };
    let word = value.bytes();
    if word == b"completed".as_slice() {
        Ok(WhichJobs::Completed)
    } else if word == b"not-completed".as_slice() {
        Ok(WhichJobs::NotCompleted)
    } else {
        Ok(WhichJobs::Unsupported(as_it_came(alloc, group, which)?))
    }
}

/// The most jobs that the reply may have, if the request limits them.
fn limit_of(group: &GroupView<'_>) -> Option<u32>
    ensures { result ≡ limit_of (group_shown group.now) }
{
    let limit = number_of(group, OperationAttribute::Limit)?;
    if limit >= 1 { Some(limit) } else { None }
}

/// The fields of a Get-Jobs. The only error is out of memory.
pub(crate) fn get_jobs_of(alloc: Global, group: &GroupView<'_>) -> Result<GetJobs, AllocError>
    requires { IsGroup (group_shown group.now) }
    ensures { IfOk result (λ request. request ≡ get_jobs_of (group_shown group.now)) }
{
    Ok(GetJobs {
        printer: printer_request_of(alloc, group)?,
        which: which_of(alloc, group)?,
        mine: truth_of(group, OperationAttribute::MyJobs),
        limit: limit_of(group),
        requested: requested_of(alloc, group, &[b"job-uri", b"job-id"])?,
    })
}
