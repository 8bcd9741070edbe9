//! The jobs that begin.
ghost use Rattle.std.specs.Prelude.{◌≡◌, ◌<◌, ◌≤◌, ◌++◌, OnOk, IfOk, IfSome, None, length, option_to_list, All, if◌then◌else◌};
ghost use Rattle.plan_prices.specs.Way.{queue_of};
ghost use Rattle.print_room.specs.Beginning.{CanBegin};
ghost use Rattle.print_room.specs.Dispatch.{runs_idle, is_free, beginning, first_of, first_of_queue, starts_from};

use crate::activity::wait_of;
use crate::room::PrintRoom;
use crate::started::Started;
use base_types::{Activity, DeviceId, DeviceNow, JobId, Limits, Moment, Printing};
use plan_prices::{PlannedClass, Way};
use std::alloc::{AllocError, Global};

/// Returns whether a device can begin a job at a moment: it runs, has no job, and its moment to begin has
/// come.
fn is_free(device: &DeviceNow, now: Moment) -> bool
    ensures { result ≡ is_free now device.now }
{
    runs_idle(device.activity) && wait_of(device, now) == 0
}

/// Returns whether a device runs and has no job.
fn runs_idle(activity: Activity) -> bool
    ensures { result ≡ runs_idle activity }
{
    match activity {
        Activity::Running(None) => true,
        Activity::Running(Some(_)) | Activity::Stopped(_) => false,
    }
}

/// The list that a way has for a device, the first to be printed first.
fn queue_of(way: &Way, device: DeviceId) -> &[JobId]
    ensures { result.now ≡ queue_of way.now device }
{
    match way.queues().get(device.place()) {
        Some(queue) => queue.jobs(),
        None => &[],
    }
}

/// The first job of the list that a class has for a device, with its time there.
fn first_of_class(class: &PlannedClass, device: DeviceId) -> Option<Started>
    ensures first { result ≡ first_of_queue class.now device (queue_of class.now.priced.way device) }
    ensures short { IfSome result (λ start. start.time ≤ Limits.JOB_TIME) }
{
    // Reading the problem gives its invariant.
    let _class = class.problem.ids();
    let jobs = queue_of(&class.priced.way, device);
    match jobs.first() {
        Some(job) => {
            let job = *job;
            let time = class.problem.time(job, device).unwrap_or(0);
            Some(Started { job, device, time })
        }
        None => None,
    }
}

/// The first job of a device's list, the lists of the classes joined from the highest down.
fn first_of(classes: &[PlannedClass], device: DeviceId) -> Option<Started>
    ensures first { result ≡ first_of classes.now device }
    ensures short { IfSome result (λ start. start.time ≤ Limits.JOB_TIME) }
{
    for class in classes {
        let first = first_of_class(class, device);
        if first.is_some() {
            return first;
        }
    }
    None
}

/// The job that a device begins at a moment under these classes: the first of its list, if the device is
/// free.
fn start_on(
    classes: &[PlannedClass],
    id: DeviceId,
    device: &DeviceNow,
    now: Moment,
) -> Option<Started>
    ensures start { result ≡ (if is_free now device.now then first_of classes.now id else None) }
    ensures short { IfSome result (λ start. start.time ≤ Limits.JOB_TIME) }
{
    if is_free(device, now) {
        first_of(classes, id)
    } else {
        None
    }
}

/// The jobs that the devices begin at a moment under these classes, by device. The only error is out of
/// memory.
pub(crate) fn starts_of(
    alloc: Global,
    classes: &[PlannedClass],
    devices: &[DeviceNow],
    now: Moment,
) -> Result<Vec<Started>, AllocError>
    ensures starts { IfOk result (λ starts. starts.items ≡ starts_from now classes.now 0 devices.now) }
    ensures short { IfOk result (λ starts. All (λ start. start.time ≤ Limits.JOB_TIME) starts.items) }
{
    let mut starts = Vec::with_capacity(alloc, devices.len())?;
    for (place, device) in devices.iter().enumerate() {
        add_start(
            &mut starts,
            start_on(classes, DeviceId::new(place), device, now),
        )?;
    }
    Ok(starts)
}

/// Appends a job that a device begins, if there is one.
fn add_start(starts: &mut Vec<Started>, start: Option<Started>) -> Result<(), AllocError>
    ensures { OnOk result (starts.new.items ≡ starts.old.items ++ option_to_list start) }
{
    if let Some(start) = start {
        starts.push(start)?;
    }
    Ok(())
}

impl PrintRoom {
    /// Begins a job on its device.
    pub(crate) fn begin(&mut self, start: Started)
        requires inside { start.device < length self.old.devices }
        requires short { start.time ≤ Limits.JOB_TIME }
        requires can { CanBegin start self.old }
        ensures { self.new ≡ beginning self.old.last start self.old }
    {
        let now = self.last;
        let end = now.millis() + start.time;
        self.good_for = None;
        self.spool.begin(start.job, now);
        self.set_activity(
            start.device.place(),
            Activity::Running(Some(Printing {
                job: start.job,
                end,
            })),
        );
    }
}
