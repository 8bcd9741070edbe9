//! The step of a Get-Jobs (RFC 8011, section 4.2.6).
ghost use Rattle.std.specs.Prelude.{◌≡◌, ◌≤◌, IfOk, IsOk, IsErr, OnErr};
ghost use Rattle.std.specs.Option.{option_copied};
ghost use Rattle.listings.specs.Groups.{job_groups};
ghost use Rattle.dispatcher.specs.GetJobs.{ListsJobs, lists_finished, listed_owner, wanted_of};

use crate::answering::{refuse, show};
use crate::checks::{Rejection, named_printer};
use base_types::{Moment, Text};
use events::{Effects, GetJobs, ResponseGroups, Status, WhichJobs};
use listings::{Wanted, job_groups};
use print_room::PrintRoom;
use std::alloc::{AllocError, Global};

/// Responds with the requested jobs, or the rejection. A rejection takes no memory.
pub(crate) fn get_jobs(
    alloc: Global,
    room: &mut PrintRoom,
    request: GetJobs,
    now: Moment,
) -> Result<Effects, AllocError>
    requires { room.old.last ≤ now }
    ensures ok { IfOk result (λ effects. ListsJobs now request room.old effects room.new) }
    ensures err { OnErr result (room.new ≡ room.old) }
    ensures light { IsErr (wanted_of request room.old) → IsOk result }
{
    let GetJobs {
        printer: query,
        which,
        mine,
        limit,
        requested,
    } = request;
    let printer = match named_printer(alloc, room, &query.target) {
        Ok(printer) => printer.id,
        Err(refusal) => return Ok(refuse(alloc, room, refusal, now)),
    };
    let finished = match lists_finished(which) {
        Ok(finished) => finished,
        Err(refusal) => return Ok(refuse(alloc, room, refusal, now)),
    };
    let wanted = Wanted {
        printer,
        finished,
        owner: listed_owner(mine, &query.user),
        limit,
    };
    let groups = listed_groups(alloc, room, &wanted, now, requested.names())?;
    Ok(show(alloc, room, groups, now))
}

/// A group for each requested job. The only error is out of memory.
fn listed_groups(
    alloc: Global,
    room: &PrintRoom,
    wanted: &Wanted<'_>,
    now: Moment,
    requested: &[Text],
) -> Result<ResponseGroups, AllocError>
    ensures { IfOk result (λ groups. groups ≡ job_groups wanted.now now requested.now room.now) }
{
    let groups = job_groups(alloc, room, wanted, now, requested)?;
    Ok(ResponseGroups::from_vec(groups))
}

/// Returns whether finished jobs are requested. An unsupported which-jobs is a rejection with that attribute,
/// unchanged.
fn lists_finished(which: WhichJobs) -> Result<bool, Rejection>
    ensures { result ≡ lists_finished which }
{
    match which {
        WhichJobs::Completed => Ok(true),
        WhichJobs::NotCompleted => Ok(false),
        WhichJobs::Unsupported(unsupported) => Err(Rejection {
            status: Status::AttributesNotSupported,
            unsupported,
        }),
    }
}

/// The owner of the requested jobs, if my-jobs limits them to those of the request's user.
fn listed_owner(mine: bool, user: &Text) -> Option<&Text>
    ensures { option_copied result ≡ listed_owner mine user.now }
{
    if mine { Some(user) } else { None }
}
