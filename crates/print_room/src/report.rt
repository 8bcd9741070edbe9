//! The effect of a device's report.
ghost use Rattle.std.specs.Prelude.{◌≡◌, ◌≤◌, ◌<◌, length, IfSome};
ghost use Rattle.print_room.specs.Activity.{KeepsTime};
ghost use Rattle.print_room.specs.Report.{has_job, change_by, time_left, without_job, left_of, paged, activity_after, jobs_after, documents_out, refitted, Reports};
ghost use Rattle.print_room.specs.State.{with_device, doing};
ghost use Rattle.print_room.specs.DeviceJobs.{Agree, KeepsOrEnds};

use crate::activity::{idle, job_on, running_from, stopped_at, taking};
use crate::room::PrintRoom;
use base_types::{Activity, DeviceNow, JobId, Limits, Moment, Needs, Report};
use job_objects::JobChange;
use octets::Document;
use plan_problem::rate;

/// Returns whether the device has the job of a number.
pub(crate) fn has_job(activity: Activity, number: u32) -> bool
    ensures { result ≡ has_job number activity }
{
    match job_on(activity) {
        Some(id) => id.number() == number,
        None => false,
    }
}

/// The change of the device's job that a report makes.
fn change_by(report: &Report, activity: Activity) -> Option<JobChange>
    ensures { result ≡ change_by report.now activity }
{
    match (report, activity) {
        (Report::Ready, Activity::Stopped(_)) => Some(JobChange::Continue),
        (Report::Stop, Activity::Running(_)) => Some(JobChange::Stop),
        (Report::Done { job }, _) if has_job(activity, *job) => Some(JobChange::Done),
        (Report::Fail { job }, _) if has_job(activity, *job) => Some(JobChange::Fail),
        (Report::Gone, _) => Some(JobChange::Fail),
        _ => None,
    }
}

/// The time left of a job of which `printed` impressions are printed, in ms.
fn time_left(needs: &Needs, device: &DeviceNow, printed: u32) -> u64
    ensures value { result ≡ time_left needs.now device.now printed }
    ensures bound { result ≤ Limits.JOB_TIME }
{
    let impressions = u64::from(needs.impressions) * u64::from(needs.copies);
    impressions.saturating_sub(u64::from(printed)) * u64::from(rate(needs, device))
}

/// The activity of a device without the job of a number, if the device has that job.
fn without_job(activity: Activity, number: u32) -> Activity
    ensures { result ≡ without_job number activity }
{
    match activity {
        Activity::Running(printing) => {
            Activity::Running(printing.filter(|printing| printing.job.number() != number))
        }
        Activity::Stopped(interrupted) => {
            Activity::Stopped(interrupted.filter(|interrupted| interrupted.job.number() != number))
        }
    }
}

impl PrintRoom {
    /// The activity of a device after a report.
    fn activity_after(&self, report: &Report, device: &DeviceNow, now: Moment) -> Activity
        requires { KeepsTime now device.now.activity }
        ensures activity { result ≡ activity_after now report.now self.now.spool.jobs device.now }
        ensures in_time { KeepsTime now result }
    {
        let activity = device.activity;
        match report {
            Report::Hello(_) | Report::Media(_) | Report::Busy(_) => activity,
            Report::Ready => running_from(activity, now),
            Report::Stop => stopped_at(activity, now),
            Report::Pages { job, printed } => self.paged(*job, *printed, device, now),
            Report::Done { job } | Report::Fail { job } => without_job(activity, *job),
            Report::Gone => stopped_at(idle(activity), now),
        }
    }

    /// The activity of a device after it has printed this many impressions of its job.
    fn paged(&self, number: u32, printed: u32, device: &DeviceNow, now: Moment) -> Activity
        requires { KeepsTime now device.now.activity }
        ensures activity { result ≡ paged now number printed self.now.spool.jobs device.now }
        ensures in_time { KeepsTime now result }
    {
        let activity = device.activity;
        let left = self.left_of(number, printed, device);
        match left {
            Some(left) => taking(activity, left, now),
            None => activity,
        }
    }

    /// The time left of the device's job in ms, if the device has the job of a number.
    fn left_of(&self, number: u32, printed: u32, device: &DeviceNow) -> Option<u64>
        ensures value { result ≡ left_of number printed self.now.spool.jobs device.now }
        ensures bound { IfSome result (λ left. left ≤ Limits.JOB_TIME) }
    {
        let id = job_on(device.activity)?;
        if id.number() != number {
            return None;
        }
        let job = self.spool.get(id)?;
        let needs = &job.needs;
        Some(time_left(needs, device, printed))
    }

    /// Applies a report of the device at a place, at a moment that isn't before the last one. Returns the
    /// documents of a job that the report ends. If no device is at the place, only the last moment changes.
    /// The call takes no memory.
    pub fn report(&mut self, place: usize, report: &Report, now: Moment) -> Vec<Document>
        requires { self.old.last ≤ now }
        ensures reports { Reports now place report.now self.old result.items self.new }
        ensures keep { KeepsOrEnds place self.old result.items self.new }
    {
        self.advance(now);
        let core = &*self;
        let Some(device) = core.devices.get(place) else {
            return Vec::new(self.alloc);
        };
        let job = job_on(device.activity);
        let change = change_by(report, device.activity);
        let next = core.activity_after(report, device, now);
        self.refit(place, report, next);
        self.change_job(job, change, now)
    }

    /// Changes the device at a place by a report: it holds the media that the report names, or begins no job
    /// for the time that the report states, or has the given activity.
    fn refit(&mut self, place: usize, report: &Report, activity: Activity)
        requires inside { place < length self.old.devices }
        requires in_time { KeepsTime self.old.last activity }
        requires agree { Agree (with_device place (doing activity) self.old.devices) self.old.spool.jobs }
        ensures { self.new ≡ record self.old { devices = with_device place (refitted self.old.last report.now activity) self.old.devices } }
    {
        match report {
            Report::Media(names) => self.update_media(place, names),
            Report::Busy(time) => self.update_free_from(
                place,
                self.last.millis() + u64::from(*time),
            ),
            Report::Gone => {
                self.update_activity(place, activity);
                self.update_free_from(place, 0);
            }
            _ => self.update_activity(place, activity),
        }
    }

    /// Changes the job of a device, if there is a job and a change. Returns the documents that are handed out.
    fn change_job(
        &mut self,
        job: Option<JobId>,
        change: Option<JobChange>,
        now: Moment,
    ) -> Vec<Document>
        requires { Agree self.old.devices (jobs_after now job change self.old.spool.jobs) }
        ensures jobs { self.new ≡ record self.old { spool = record self.old.spool { jobs = jobs_after now job change self.old.spool.jobs } } }
        ensures documents { result.items ≡ documents_out job change self.old.spool.jobs }
    {
        match (job, change) {
            (Some(id), Some(change)) => {
                self.good_for = None;
                self.spool.report(id, change, now)
            }
            _ => Vec::new(self.alloc),
        }
    }
}
