//! The step of an LPD client's job of files (RFC 1179, section 6).
ghost use Rattle.std.specs.Prelude.{◌≡◌, ◌≤◌, IfOk, IfSome, IsOk, IsSome, OnErr, None, [], slice_get};
ghost use Rattle.std.specs.Option.{option_map_or};
ghost use Rattle.spool.specs.Calls.{new_refusal};
ghost use Rattle.dispatcher.specs.SubmitFiles.{FilesJob, SubmitsFiles, filed_of, job_of_files};

use base_types::{Finishings, Moment, PrinterId, Priority, Sides, Text};
use events::{Effects, LpdResponse, SubmitFiles};
use listings::queue_of;
use print_room::PrintRoom;
use settings_file::PrinterSettings;
use spool::NewJob;
use std::alloc::{AllocError, Global};

/// Takes the job of the files, or responds that it isn't taken. Memory is taken only for a job that is taken.
pub(crate) fn submit_files(
    alloc: Global,
    room: &mut PrintRoom,
    request: SubmitFiles,
    now: Moment,
) -> Result<Effects, AllocError>
    requires { room.old.last ≤ now }
    ensures ok { IfOk result (λ effects. SubmitsFiles now request room.old effects room.new) }
    ensures err { OnErr result (room.new ≡ room.old) }
    ensures light { filed_of request now room.old ≡ None → IsOk result }
{
    match filed_of(alloc, room, request, now)? {
        Some(job) => take(alloc, room, job, now),
        None => {
            room.advance(now);
            Ok(Effects::to_lpd(alloc, LpdResponse::Taken(false)))
        }
    }
}

/// Takes a job that passed the checks.
fn take(
    alloc: Global,
    room: &mut PrintRoom,
    job: NewJob,
    now: Moment,
) -> Result<Effects, AllocError>
    requires later { room.old.last ≤ now }
    requires free { new_refusal room.old.spool job.documents ≡ None }
    ensures ok { IfOk result (λ effects. FilesJob now room.old job effects room.new) }
    ensures err { OnErr result (room.new ≡ room.old) }
{
    match room.submit(job, now) {
        Ok(_) => Ok(Effects::to_lpd(alloc, LpdResponse::Taken(true))),
        Err(_) => Err(AllocError),
    }
}

/// The job of the files, if its queue is known and there is room for it.
fn filed_of(
    alloc: Global,
    room: &PrintRoom,
    request: SubmitFiles,
    now: Moment,
) -> Result<Option<NewJob>, AllocError>
    ensures ok { IfOk result (λ job. job ≡ filed_of request now room.now) }
    ensures err { OnErr result (IsSome (filed_of request now room.now)) }
    ensures free { IfOk result (λ job. IfSome job (λ job. new_refusal room.now.spool job.documents ≡ None)) }
{
    if room.spool().admits(&request.documents).is_err() {
        return Ok(None);
    }
    let Some(printer) = queue_of(room, &request.queue) else {
        return Ok(None);
    };
    let job = job_of_files(alloc, room, request, printer, now)?;
    Ok(Some(job))
}

/// The job of the files at a printer.
fn job_of_files(
    alloc: Global,
    room: &PrintRoom,
    request: SubmitFiles,
    printer: PrinterId,
    now: Moment,
) -> Result<NewJob, AllocError>
    ensures { IfOk result (λ job. job ≡ job_of_files request now room.now printer) }
{
    let media = default_medium(alloc, &room.settings().printers, printer)?;
    Ok(NewJob {
        created: now,
        printer,
        owner: request.owner,
        name: request.name,
        priority: Priority::normal(),
        sides: Sides::One,
        finishings: Finishings::none(),
        media,
        copies: 1,
        held: false,
        impressions: None,
        documents: request.documents,
    })
}

/// The default medium of a printer.
fn default_medium(
    alloc: Global,
    printers: &[PrinterSettings],
    printer: PrinterId,
) -> Result<Text, AllocError>
    ensures { IfOk result (λ media. media ≡ option_map_or (λ printer. printer.media_default) (slice_get printers.now printer) []) }
{
    match printers.get(printer.place()) {
        Some(printer) => printer.media_default.copied(alloc),
        None => Ok(Text::new(Vec::new(alloc))),
    }
}
