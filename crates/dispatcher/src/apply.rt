//! The step of each event.
ghost use Rattle.std.specs.Prelude.{◌≡◌, ◌≤◌, IfOk, IsOk, OnErr};
ghost use Rattle.dispatcher.specs.Step.{Step, Reported, Ticks, TakesNoMemory};

use crate::cancel_job::cancel_job;
use crate::create_job::create_job;
use crate::get_attributes::{get_job_attributes, get_printer_attributes};
use crate::get_jobs::get_jobs;
use crate::hold_job::{hold_job, release_job};
use crate::list_queue::list_queue;
use crate::pause_printer::set_paused;
use crate::print_job::print_job;
use crate::remove_jobs::remove_jobs;
use crate::send_document::send_document;
use crate::submit_files::submit_files;
use crate::validate_job::validate_job;
use base_types::{DeviceId, Moment, Report};
use events::{Effects, Event};
use print_room::PrintRoom;
use std::alloc::{AllocError, Global};

/// Takes the step of an event at a moment; if that is before the last moment, at the last moment.
///
/// The only error is out of memory: the event is dropped, and the room is unchanged. Memory is taken only for
/// a response of more than a status, for a job of files that is taken, for the listing of a queue, and for a
/// cancel of which a device is notified.
pub(crate) fn apply(
    alloc: Global,
    room: &mut PrintRoom,
    event: Event,
    moment: Moment,
) -> Result<Effects, AllocError>
    ensures ok { IfOk result (λ effects. Step room.old event moment effects room.new) }
    ensures err { OnErr result (room.new ≡ room.old) }
    ensures light { TakesNoMemory event moment room.old → IsOk result }
{
    let now = moment.later(room.last());
    match event {
        Event::PrintJob(request) => print_job(alloc, room, request, now),
        Event::ValidateJob(request) => Ok(validate_job(alloc, room, request, now)),
        Event::CreateJob(request) => create_job(alloc, room, request, now),
        Event::SendDocument(request) => send_document(alloc, room, request, now),
        Event::CancelJob(request) => cancel_job(alloc, room, &request, now),
        Event::GetJobAttributes(request) => get_job_attributes(alloc, room, &request, now),
        Event::GetJobs(request) => get_jobs(alloc, room, request, now),
        Event::GetPrinterAttributes(request) => {
            get_printer_attributes(alloc, room, &request, now)
        }
        Event::HoldJob(request) => Ok(hold_job(alloc, room, request, now)),
        Event::ReleaseJob(request) => Ok(release_job(alloc, room, request, now)),
        Event::PausePrinter(request) => Ok(set_paused(alloc, room, &request, true, now)),
        Event::ResumePrinter(request) => Ok(set_paused(alloc, room, &request, false, now)),
        Event::SubmitFiles(request) => submit_files(alloc, room, request, now),
        Event::ListQueue(request) => list_queue(alloc, room, &request, now),
        Event::RemoveJobs(request) => remove_jobs(alloc, room, &request, now),
        Event::Report(device, report) => Ok(act_on(alloc, room, device, &report, now)),
        Event::Tick => Ok(tick(alloc, room, now)),
    }
}

/// Takes the step of a tick: jobs whose documents stopped coming are aborted.
fn tick(alloc: Global, room: &mut PrintRoom, now: Moment) -> Effects
    requires { room.old.last ≤ now }
    ensures { Ticks now room.old result room.new }
{
    room.expire(now);
    Effects::unanswered(alloc, Vec::new(alloc))
}

/// Takes the step of a device's report.
fn act_on(
    alloc: Global,
    room: &mut PrintRoom,
    device: DeviceId,
    report: &Report,
    now: Moment,
) -> Effects
    requires { room.old.last ≤ now }
    ensures { Reported now device report.now room.old result room.new }
{
    let documents = room.report(device.place(), report, now);
    Effects::unanswered(alloc, documents)
}
