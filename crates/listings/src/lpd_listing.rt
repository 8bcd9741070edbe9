//! The listing of a queue.
ghost use Rattle.std.specs.Prelude.{◌≡◌, ◌++◌, IfOk, OnOk};
ghost use Rattle.listings.specs.QueueListing.{ShowsQueue, entries_of, shown_of};

use crate::groups::state_of_printer;
use crate::listing::listed;
use crate::lpd_entry::entry_of;
use crate::operand::is_shown;
use crate::wanted::Wanted;
use base_types::{Moment, PrinterId, Text};
use events::{ListQueue, QueueEntry, QueueListing};
use job_objects::Job;
use print_room::PrintRoom;
use std::alloc::{AllocError, Global};

/// The listing of the queue of a printer, at a moment: its unfinished jobs that an operand names, or all of
/// them if there are no operands, in the order of [`listed`].
///
/// The only error is out of memory.
pub fn queue_listing(
    alloc: Global,
    room: &PrintRoom,
    printer: PrinterId,
    request: &ListQueue,
    now: Moment,
) -> Result<QueueListing, AllocError>
    ensures { IfOk result (λ listing. ShowsQueue now printer request.now room.now listing) }
{
    Ok(QueueListing {
        form: request.form,
        name: request.queue.copied(alloc)?,
        state: state_of_printer(room, printer),
        jobs: shown_jobs(alloc, room, printer, &request.operands, now)?,
    })
}

/// The entries of the listed jobs. The only error is out of memory.
fn shown_jobs(
    alloc: Global,
    room: &PrintRoom,
    printer: PrinterId,
    operands: &[Text],
    now: Moment,
) -> Result<Vec<QueueEntry>, AllocError>
    ensures { IfOk result (λ jobs. jobs.items ≡ entries_of now printer operands.now room.now) }
{
    let wanted = Wanted {
        printer,
        finished: false,
        owner: None,
        limit: None,
    };
    let listed = listed(alloc, room, &wanted, now)?;
    let mut jobs = Vec::new(alloc);
    for entry in &listed {
        add_shown(alloc, &mut jobs, room, operands, entry.job())?;
    }
    Ok(jobs)
}

/// Appends the entry of a job, if the job is listed. The only error is out of memory.
fn add_shown(
    alloc: Global,
    jobs: &mut Vec<QueueEntry>,
    room: &PrintRoom,
    operands: &[Text],
    job: &Job,
) -> Result<(), AllocError>
    ensures { OnOk result (jobs.new.items ≡ jobs.old.items ++ shown_of operands.now room.now job.now) }
{
    if is_shown(operands, job) {
        jobs.push(entry_of(alloc, room, job)?)?;
    }
    Ok(())
}
