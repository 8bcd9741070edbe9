//! The effects of a request that is rejected, shown groups, or taken.
ghost use Rattle.std.specs.Prelude.{◌≡◌, ◌≤◌};
ghost use Rattle.dispatcher.specs.Answers.{Refuses, Shows, taken_with};

use crate::checks::Rejection;
use base_types::Moment;
use events::{Effects, ResponseGroups, Status};
use job_template::RequestAttributes;
use print_room::PrintRoom;
use std::alloc::Global;

/// The status for a job that is taken or validated, by the attributes that aren't supported.
pub(crate) fn taken_with(unsupported: &RequestAttributes) -> Status
    ensures { result ≡ taken_with unsupported.now }
{
    if unsupported.is_empty() {
        Status::Ok
    } else {
        Status::OkIgnoredOrSubstituted
    }
}

/// Responds with the status and the unsupported attributes of a rejection. Only the last moment changes.
pub(crate) fn refuse(
    alloc: Global,
    room: &mut PrintRoom,
    refusal: Rejection,
    now: Moment,
) -> Effects
    requires { room.old.last ≤ now }
    ensures { Refuses now room.old refusal result room.new }
{
    let Rejection {
        status,
        unsupported,
    } = refusal;
    room.advance(now);
    Effects::answered(alloc, status, unsupported, ResponseGroups::new(alloc))
}

/// Responds with groups. Only the last moment changes.
pub(crate) fn show(
    alloc: Global,
    room: &mut PrintRoom,
    groups: ResponseGroups,
    now: Moment,
) -> Effects
    requires { room.old.last ≤ now }
    ensures { Shows now room.old groups result room.new }
{
    room.advance(now);
    Effects::answered(alloc, Status::Ok, RequestAttributes::new(alloc), groups)
}
