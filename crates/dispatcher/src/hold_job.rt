//! The steps of a Hold-Job and a Release-Job (RFC 8011, sections 4.3.5 and 4.3.6).
ghost use Rattle.std.specs.Prelude.{◌≤◌};
ghost use Rattle.job_objects.specs.declared.job_change.JobChange.TheVariants as Change;
ghost use Rattle.dispatcher.specs.HoldJob.{ChangesJob, HoldsJob, ReleasesJob};

use crate::answering::{refuse, taken_with};
use crate::checks::{named_job, refused_change};
use base_types::Moment;
use events::{Effects, HoldJob, HoldUntil, JobRequest, ResponseGroups};
use job_template::RequestAttributes;
use print_room::PrintRoom;
use std::alloc::Global;

/// Holds or releases a job, by job-hold-until, or responds with the rejection. The call takes no memory.
pub(crate) fn hold_job(
    alloc: Global,
    room: &mut PrintRoom,
    request: HoldJob,
    now: Moment,
) -> Effects
    requires { room.old.last ≤ now }
    ensures { HoldsJob now request room.old result room.new }
{
    let HoldJob { job, until } = request;
    match until {
        HoldUntil::NoHold => release_job(alloc, room, job, now),
        HoldUntil::Indefinite => hold(alloc, room, job, RequestAttributes::new(alloc), now),
        HoldUntil::Unsupported(attribute) => hold(alloc, room, job, attribute, now),
    }
}

/// Holds a job, or responds with the rejection. The response has the unsupported attributes.
fn hold(
    alloc: Global,
    room: &mut PrintRoom,
    request: JobRequest,
    unsupported: RequestAttributes,
    now: Moment,
) -> Effects
    requires { room.old.last ≤ now }
    ensures { ChangesJob now request Change.Hold unsupported room.old result room.new }
{
    let id = match named_job(alloc, room, &request.target) {
        Ok(job) => job.id,
        Err(refusal) => return refuse(alloc, room, refusal, now),
    };
    match room.hold(id, &request.user, now) {
        Ok(()) => {
            let status = taken_with(&unsupported);
            Effects::answered(alloc, status, unsupported, ResponseGroups::new(alloc))
        }
        Err(cause) => refuse(alloc, room, refused_change(alloc, cause), now),
    }
}

/// Releases a job, or responds with the rejection. The call takes no memory.
pub(crate) fn release_job(
    alloc: Global,
    room: &mut PrintRoom,
    request: JobRequest,
    now: Moment,
) -> Effects
    requires { room.old.last ≤ now }
    ensures { ReleasesJob now request room.old result room.new }
{
    let id = match named_job(alloc, room, &request.target) {
        Ok(job) => job.id,
        Err(refusal) => return refuse(alloc, room, refusal, now),
    };
    match room.release(id, &request.user, now) {
        Ok(()) => Effects::done(alloc),
        Err(cause) => refuse(alloc, room, refused_change(alloc, cause), now),
    }
}
