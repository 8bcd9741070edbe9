//! The step of a Validate-Job (RFC 8011, section 4.2.3): the response is that of a Print-Job, and no job is
//! made.
ghost use Rattle.std.specs.Prelude.{◌≡◌, ◌≤◌};
ghost use Rattle.dispatcher.specs.ValidateJob.{Validates, ValidatesJob, validated_of, validated_of_printer};

use crate::answering::{refuse, taken_with};
use crate::checks::{
    NamedPrinter, Rejection, checked_format, named_printer, unsupported_attributes,
};
use base_types::Moment;
use events::{Effects, JobCreation, ResponseGroups, ValidateJob};
use job_template::RequestAttributes;
use print_room::PrintRoom;
use std::alloc::Global;

/// Takes the step of a Validate-Job request. The call takes no memory.
pub(crate) fn validate_job(
    alloc: Global,
    room: &mut PrintRoom,
    request: ValidateJob,
    now: Moment,
) -> Effects
    requires { room.old.last ≤ now }
    ensures { ValidatesJob now request room.old result room.new }
{
    match validated(alloc, room, request) {
        Ok(unsupported) => answer(alloc, room, unsupported, now),
        Err(refusal) => refuse(alloc, room, refusal, now),
    }
}

/// Responds with the unsupported attributes.
fn answer(
    alloc: Global,
    room: &mut PrintRoom,
    unsupported: RequestAttributes,
    now: Moment,
) -> Effects
    requires { room.old.last ≤ now }
    ensures { Validates now room.old unsupported result room.new }
{
    let status = taken_with(&unsupported);
    room.advance(now);
    Effects::answered(alloc, status, unsupported, ResponseGroups::new(alloc))
}

/// The unsupported attributes of a request, or the rejection of the first check that fails.
fn validated(
    alloc: Global,
    room: &PrintRoom,
    request: ValidateJob,
) -> Result<RequestAttributes, Rejection>
    ensures { result ≡ validated_of request room.now }
{
    let printer = named_printer(alloc, room, &request.job.target)?;
    validated_of_printer(alloc, &printer, request)
}

/// The attributes of a request that a printer doesn't support, or the rejection of the first check that
/// fails.
fn validated_of_printer(
    alloc: Global,
    printer: &NamedPrinter<'_>,
    request: ValidateJob,
) -> Result<RequestAttributes, Rejection>
    ensures { result ≡ validated_of_printer request printer.now }
{
    let ValidateJob { job, form } = request;
    let _format = checked_format(alloc, &printer.offer, &form)?;
    let JobCreation {
        fidelity,
        template,
        ..
    } = job;
    unsupported_attributes(alloc, &printer.offer, fidelity, template)
}
