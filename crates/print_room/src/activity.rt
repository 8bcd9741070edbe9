//! The activity of a device over time.
ghost use Rattle.std.specs.Prelude.{◌≡◌, ◌≤◌, ℕ, true};
ghost use Rattle.print_room.specs.Activity.{idle, job_on, KeepsTime, running_from, stopped_at, taken_for, taking, wait_of};

use base_types::{Activity, DeviceNow, Interrupted, JobId, Limits, Moment, Printing};

/// The job that a device has.
pub fn job_on(activity: Activity) -> Option<JobId>
    ensures { result ≡ job_on activity }
{
    match activity {
        Activity::Running(printing) => printing.map(|printing| printing.job),
        Activity::Stopped(interrupted) => interrupted.map(|interrupted| interrupted.job),
    }
}

/// The activity of a device that runs from a moment on.
pub fn running_from(activity: Activity, now: Moment) -> Activity
    requires { KeepsTime now activity }
    ensures activity { result ≡ running_from now activity }
    ensures in_time { KeepsTime now result }
{
    match activity {
        Activity::Stopped(Some(interrupted)) => Activity::Running(Some(Printing {
            job: interrupted.job,
            end: now.millis() + interrupted.left,
        })),
        Activity::Stopped(None) => Activity::Running(None),
        Activity::Running(printing) => Activity::Running(printing),
    }
}

/// The activity of a device that stops at a moment.
pub fn stopped_at(activity: Activity, now: Moment) -> Activity
    requires { KeepsTime now activity }
    ensures activity { result ≡ stopped_at now activity }
    ensures in_time { KeepsTime now result }
{
    match activity {
        Activity::Running(Some(printing)) => Activity::Stopped(Some(Interrupted {
            job: printing.job,
            left: printing.end.saturating_sub(now.millis()),
        })),
        Activity::Running(None) => Activity::Stopped(None),
        Activity::Stopped(interrupted) => Activity::Stopped(interrupted),
    }
}

/// The activity of a device whose job takes `left` ms from a moment on.
pub fn taking(activity: Activity, left: u64, now: Moment) -> Activity
    requires { left ≤ Limits.JOB_TIME }
    ensures activity { result ≡ taking left now activity }
    ensures in_time { KeepsTime now result }
{
    match activity {
        Activity::Running(Some(printing)) => Activity::Running(Some(Printing {
            job: printing.job,
            end: now.millis() + left,
        })),
        Activity::Running(None) => Activity::Running(None),
        Activity::Stopped(Some(interrupted)) => Activity::Stopped(Some(Interrupted {
            job: interrupted.job,
            left,
        })),
        Activity::Stopped(None) => Activity::Stopped(None),
    }
}

/// The activity of a device whose job is gone.
pub fn idle(activity: Activity) -> Activity
    ensures { result ≡ idle activity }
{
    match activity {
        Activity::Running(_) => Activity::Running(None),
        Activity::Stopped(_) => Activity::Stopped(None),
    }
}

/// The time in ms that the device's job still takes from a moment on.
pub fn taken_for(activity: Activity, now: Moment) -> u64
    ensures value { result ≡ taken_for now activity }
    ensures short { (last : ℕ) → last ≤ now → KeepsTime last activity → result ≤ Limits.JOB_TIME }
{
    match activity {
        Activity::Running(Some(printing)) => printing.end.saturating_sub(now.millis()),
        Activity::Stopped(Some(interrupted)) => interrupted.left,
        Activity::Running(None) | Activity::Stopped(None) => 0,
    }
}

/// Returns true only if the activities are the same.
pub(crate) fn is_same(one: &Activity, other: &Activity) -> bool
    ensures { result ≡ true → one.now ≡ other.now }
{
    match (one, other) {
        (Activity::Running(None), Activity::Running(None))
        | (Activity::Stopped(None), Activity::Stopped(None)) => true,
        (Activity::Running(Some(one)), Activity::Running(Some(other))) => {
            one.job == other.job && one.end == other.end
        }
        (Activity::Stopped(Some(one)), Activity::Stopped(Some(other))) => {
            one.job == other.job && one.left == other.left
        }
        _ => false,
    }
}

/// The time in ms from a moment until the device is free: until its job has ended, and the moment before
/// which it begins no job has come.
pub fn wait_of(device: &DeviceNow, now: Moment) -> u64
    ensures value { result ≡ wait_of now device.now }
    ensures short { (last : ℕ) → last ≤ now → KeepsTime last device.now.activity → result ≤ Limits.NOT_BEFORE }
{
    let taken = taken_for(device.activity, now);
    taken.max(device.not_before.saturating_sub(now.millis()))
}
