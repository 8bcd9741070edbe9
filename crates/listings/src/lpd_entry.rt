//! The entry of a job in a queue's listing.
ghost use Rattle.std.specs.Prelude.{◌≡◌, IfOk};
ghost use Rattle.listings.specs.QueueListing.{entry_of};

use events::QueueEntry;
use job_objects::{Job, reasons};
use print_room::PrintRoom;
use std::alloc::{AllocError, Global};

/// The entry of a job in a queue's listing. The only error is out of memory.
pub(crate) fn entry_of(alloc: Global, room: &PrintRoom, job: &Job) -> Result<QueueEntry, AllocError>
    ensures { IfOk result (λ entry. entry ≡ entry_of room.now job.now) }
{
    let needs = &job.needs;
    Ok(QueueEntry {
        id: job.id,
        state: job.state,
        reasons: reasons(job, room.is_paused(needs.printer)),
        owner: job.owner.copied(alloc)?,
        octets: job.octets,
        impressions: needs.impressions,
        copies: needs.copies,
        name: job.name.copied(alloc)?,
    })
}
