//! The steps of a Get-Printer-Attributes and a Get-Job-Attributes (RFC 8011, sections 4.2.5 and 4.3.4).
ghost use Rattle.std.specs.Prelude.{◌≡◌, ◌≤◌, ◌∷◌, [], IfOk, IsOk, IsErr, OnErr};
ghost use Rattle.listings.specs.Groups.{job_group, printer_group};
ghost use Rattle.dispatcher.specs.Checks.{named_job, named_printer};
ghost use Rattle.dispatcher.specs.GetPrinterAttributes.{ShowsPrinter};
ghost use Rattle.dispatcher.specs.GetJobAttributes.{ShowsJob};

use crate::answering::{refuse, show};
use crate::checks::{NamedPrinter, named_job, named_printer};
use base_types::{Moment, Text};
use events::{Effects, GetJobAttributes, GetPrinterAttributes, ResponseGroups};
use job_objects::Job;
use listings::{job_group, printer_group};
use print_room::PrintRoom;
use std::alloc::{AllocError, Global};

/// Responds with the attributes of a printer, or the rejection. A rejection takes no memory.
pub(crate) fn get_printer_attributes(
    alloc: Global,
    room: &mut PrintRoom,
    request: &GetPrinterAttributes,
    now: Moment,
) -> Result<Effects, AllocError>
    requires { room.old.last ≤ now }
    ensures ok { IfOk result (λ effects. ShowsPrinter now request.now room.old effects room.new) }
    ensures err { OnErr result (room.new ≡ room.old) }
    ensures light { IsErr (named_printer request.now.target room.old) → IsOk result }
{
    let requested = request.requested.names();
    let printer = match named_printer(alloc, room, &request.target) {
        Ok(printer) => printer,
        Err(refusal) => return Ok(refuse(alloc, room, refusal, now)),
    };
    let groups = printer_groups(alloc, room, &printer, now, requested)?;
    Ok(show(alloc, room, groups, now))
}

/// The group of a printer. The only error is out of memory.
fn printer_groups(
    alloc: Global,
    room: &PrintRoom,
    printer: &NamedPrinter<'_>,
    now: Moment,
    requested: &[Text],
) -> Result<ResponseGroups, AllocError>
    ensures { IfOk result (λ groups. groups ≡ printer_group printer.now.id printer.now.offer now requested.now room.now ∷ []) }
{
    let group = printer_group(alloc, room, printer.id, &printer.offer, now, requested)?;
    ResponseGroups::one(alloc, group)
}

/// Responds with the attributes of a job, or the rejection. A rejection takes no memory.
pub(crate) fn get_job_attributes(
    alloc: Global,
    room: &mut PrintRoom,
    request: &GetJobAttributes,
    now: Moment,
) -> Result<Effects, AllocError>
    requires { room.old.last ≤ now }
    ensures ok { IfOk result (λ effects. ShowsJob now request.now room.old effects room.new) }
    ensures err { OnErr result (room.new ≡ room.old) }
    ensures light { IsErr (named_job request.now.target room.old) → IsOk result }
{
    let requested = request.requested.names();
    let job = match named_job(alloc, room, &request.target) {
        Ok(job) => job,
        Err(refusal) => return Ok(refuse(alloc, room, refusal, now)),
    };
    let groups = job_groups(alloc, room, job, now, requested)?;
    Ok(show(alloc, room, groups, now))
}

/// The group of a job. The only error is out of memory.
fn job_groups(
    alloc: Global,
    room: &PrintRoom,
    job: &Job,
    now: Moment,
    requested: &[Text],
) -> Result<ResponseGroups, AllocError>
    ensures { IfOk result (λ groups. groups ≡ job_group now requested.now room.now job.now ∷ []) }
{
    let group = job_group(alloc, room, job, now, requested)?;
    ResponseGroups::one(alloc, group)
}
