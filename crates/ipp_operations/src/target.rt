//! The printer or the job that a request names.
ghost use Rattle.std.specs.Prelude.{◌≡◌, IfOk};
ghost use Rattle.std.specs.Option.{option_copied};
ghost use Rattle.ipp_codec.specs.Views.{group_shown};
ghost use Rattle.ipp_operations.specs.Target.{after_scheme, after_known_scheme, path_of, printer_at, printer_of, printer_target, job_in, job_at, job_of, job_id, job_of_printer, job_target, names_job};

use crate::attributes::{has, number_of, value_of};
use crate::operation_attribute::OperationAttribute;
use base_types::{JobId, Limits, Text};
use events::{JobTarget, Target};
use ipp_codec::GroupView;
use std::alloc::{AllocError, Global};
use text::{find_byte, is_number, number_up_to};

/// The bytes after a scheme, which is compared without regard to the case of its letters.
fn after_scheme<'a>(uri: &'a [u8], scheme: &[u8]) -> Option<&'a [u8]>
    ensures { option_copied result ≡ after_scheme scheme.now uri.now }
{
    let (prefix, rest) = uri.split_at_checked(scheme.len())?;
    if prefix.eq_ignore_ascii_case(scheme) {
        Some(rest)
    } else {
        None
    }
}

/// The bytes after the scheme ipp or http.
fn after_known_scheme(uri: &[u8]) -> Option<&[u8]>
    ensures { option_copied result ≡ after_known_scheme uri.now }
{
    match after_scheme(uri, b"ipp://") {
        Some(rest) => Some(rest),
        None => after_scheme(uri, b"http://"),
    }
}

/// The path after the authority: from the first `/` on, empty if there is none.
fn path_of(rest: &[u8]) -> &[u8]
    ensures { result.now ≡ path_of rest.now }
{
    match find_byte(rest, b'/') {
        Some(start) => &rest[start..],
        None => &[],
    }
}

/// The printer of a path: the empty path, `/` and `/ipp/print` name the first printer.
fn printer_at(alloc: Global, path: &[u8]) -> Result<Target, AllocError>
    ensures { IfOk result (λ target. target ≡ printer_at path.now) }
{
    if path.is_empty() || path == b"/".as_slice() || path == b"/ipp/print".as_slice() {
        return Ok(Target::First);
    }
    match path.strip_prefix(b"/printers/") {
        Some(name) => Ok(Target::Named(Text::copy_of(alloc, name)?)),
        None => Ok(Target::Unknown),
    }
}

/// The printer of a URI of the scheme ipp or http. The authority is ignored, and nothing is percent-decoded.
fn printer_of(alloc: Global, uri: &[u8]) -> Result<Target, AllocError>
    ensures { IfOk result (λ target. target ≡ printer_of uri.now) }
{
    match after_known_scheme(uri) {
        Some(rest) => printer_at(alloc, path_of(rest)),
        None => Ok(Target::Unknown),
    }
}

/// The printer of a request: that of its printer-uri. The only error is out of memory.
pub(crate) fn printer_target(alloc: Global, group: &GroupView<'_>) -> Result<Target, AllocError>
    ensures { IfOk result (λ target. target ≡ printer_target (group_shown group.now)) }
{
    match value_of(group, OperationAttribute::PrinterUri) {
        Some(uri) => printer_of(alloc, uri.bytes()),
        None => Ok(Target::Unknown),
    }
}

/// The job of a number in decimal digits, without leading zeros.
fn job_in(word: &[u8]) -> Option<JobId>
    ensures { result ≡ job_in word.now }
{
    if !is_number(word) {
        return None;
    }
    let number = number_up_to(word, u64::from(Limits::LAST_JOB_ID))?;
    JobId::new(number as u32)
}

/// The job of a path.
fn job_at(path: &[u8]) -> JobTarget
    ensures { result ≡ job_at path.now }
{
    let Some(word) = path.strip_prefix(b"/jobs/") else {
        return JobTarget::Unknown;
    };
    match job_in(word) {
        Some(id) => JobTarget::Numbered(id),
        None => JobTarget::Unknown,
    }
}

/// The job of a URI of the scheme ipp or http. The authority is ignored.
fn job_of(uri: &[u8]) -> JobTarget
    ensures { result ≡ job_of uri.now }
{
    match after_known_scheme(uri) {
        Some(rest) => job_at(path_of(rest)),
        None => JobTarget::Unknown,
    }
}

/// The job of the number in a request's job-id.
fn job_id(group: &GroupView<'_>) -> Option<JobId>
    ensures { result ≡ job_id (group_shown group.now) }
{
    JobId::new(number_of(group, OperationAttribute::JobId)?)
}

/// The job of a printer-uri and a job-id. The only error is out of memory.
fn job_of_printer(alloc: Global, group: &GroupView<'_>) -> Result<JobTarget, AllocError>
    ensures { IfOk result (λ target. target ≡ job_of_printer (group_shown group.now)) }
{
    match job_id(group) {
        Some(id) => Ok(JobTarget::OfPrinter(printer_target(alloc, group)?, id)),
        None => Ok(JobTarget::Unknown),
    }
}

/// The job of a request: that of its job-uri, if it has one, else that of its printer-uri and job-id.
pub(crate) fn job_target(alloc: Global, group: &GroupView<'_>) -> Result<JobTarget, AllocError>
    ensures { IfOk result (λ target. target ≡ job_target (group_shown group.now)) }
{
    match value_of(group, OperationAttribute::JobUri) {
        Some(uri) => Ok(job_of(uri.bytes())),
        None => job_of_printer(alloc, group),
    }
}

/// Returns whether a request names a job: by a job-uri, or by a printer-uri and a job-id.
pub(crate) fn names_job(group: &GroupView<'_>) -> bool
    ensures { result ≡ names_job (group_shown group.now) }
{
    has(group, OperationAttribute::JobUri)
        || (has(group, OperationAttribute::PrinterUri) && has(group, OperationAttribute::JobId))
}
