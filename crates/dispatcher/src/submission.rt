//! The job of a request, and the response if the job is taken.
ghost use Rattle.std.specs.Prelude.{◌≡◌, ◌≤◌, ◌∷◌, [], IfOk, IsOk, OnErr, None, false};
ghost use Rattle.spool.specs.Calls.{is_full, new_refusal};
ghost use Rattle.dispatcher.specs.Submission.{checked_job, group_of};

use crate::checks::{NamedPrinter, Rejection, refused, unsupported_attributes};
use base_types::{Limits, Moment};
use events::{JobCreation, ResponseGroups, Status};
use job_objects::{JobState, waiting_reasons};
use job_template::{RequestAttributes, medium_of, template_of};
use print_room::PrintRoom;
use printer_objects::created_job_attributes;
use spool::NewJob;
use std::alloc::{AllocError, Global};

/// A job that passed the checks, and the unsupported attributes of its request.
#[derive(Drop)]
pub(crate) struct Accepted {
    pub(crate) job: NewJob,
    pub(crate) unsupported: RequestAttributes,
}

/// The accepted job at a printer for this many octets, without documents yet, or the rejection of the first
/// check that fails. Memory is taken only for an accepted job.
pub(crate) fn checked_job(
    alloc: Global,
    room: &PrintRoom,
    printer: &NamedPrinter<'_>,
    requested: JobCreation,
    octets: usize,
    now: Moment,
) -> Result<Result<Accepted, Rejection>, AllocError>
    ensures ok { IfOk result (λ made. made ≡ checked_job requested octets now room.now printer.now) }
    ensures err { OnErr result (IsOk (checked_job requested octets now room.now printer.now)) }
    ensures small { IfOk result (λ made. IfOk made (λ accepted. octets ≤ Limits.JOB_OCTETS)) }
    ensures empty { IfOk result (λ made. IfOk made (λ accepted. accepted.job.documents ≡ [])) }
    ensures room { IfOk result (λ made. IfOk made (λ accepted. is_full room.now.spool ≡ false)) }
{
    let JobCreation {
        user,
        name,
        impressions,
        fidelity,
        template: requested,
        ..
    } = requested;
    let template = template_of(&printer.offer, &requested);
    let medium = medium_of(&printer.offer, &requested);
    let unsupported = match unsupported_attributes(alloc, &printer.offer, fidelity, requested) {
        Ok(unsupported) => unsupported,
        Err(refusal) => return Ok(Err(refusal)),
    };
    if octets > Limits::JOB_OCTETS {
        return Ok(Err(refused(alloc, Status::TooLarge)));
    }
    if room.spool().is_full() {
        return Ok(Err(refused(alloc, Status::Busy)));
    }
    let media = medium.copied(alloc)?;
    let job = NewJob {
        created: now,
        printer: printer.id,
        owner: user,
        name,
        priority: template.priority,
        sides: template.sides,
        finishings: template.finishings,
        media,
        copies: template.copies,
        held: template.held,
        impressions,
        documents: Vec::new(alloc),
    };
    Ok(Ok(Accepted { job, unsupported }))
}

/// The group of the job that is taken next. `incoming` indicates whether its documents are still to come.
#[tactic(auto, using(crate::proofs::WaitingReasons::waiting_shown))]
pub(crate) fn groups_of(
    alloc: Global,
    room: &PrintRoom,
    job: &NewJob,
    incoming: bool,
) -> Result<ResponseGroups, AllocError>
    requires { new_refusal room.now.spool job.now.documents ≡ None }
    ensures { IfOk result (λ groups. groups ≡ group_of room.now job.now incoming ∷ []) }
{
    let id = room.spool().next_id().unwrap();
    let state = JobState::waiting(incoming, job.held);
    let reasons = waiting_reasons(incoming, job.held, false, room.is_paused(job.printer));
    let settings = room.settings();
    let group = created_job_attributes(alloc, &settings.uri_base, id, state, reasons)?;
    ResponseGroups::one(alloc, group)
}
