//! The moments at which jobs are expected to be complete.
ghost use Rattle.std.specs.Prelude.{◌≡◌, ◌==◌, ◌^◌, ◌≤◌, ◌++◌, IfOk, OnOk, map, find};
ghost use Rattle.std.specs.Option.{option_copied};
ghost use Rattle.plan_problem.specs.Class.{wait_in};
ghost use Rattle.plan_prices.specs.Total.{time_on};
ghost use Rattle.plan_prices.specs.Timetable.{slots_of_list};
ghost use Rattle.listings.specs.Expected.{completion, completions_in, expected_of, moment_of, on_devices, planned};

use base_types::{Activity, DeviceId, DeviceNow, JobId, Moment};
use plan_prices::{Plan, PlannedClass};
use plan_problem::ClassProblem;
use std::alloc::{AllocError, Global};

/// A job, and the moment at which it is expected to be complete.
#[derive(Clone, Copy)]
pub(crate) struct Expected {
    pub(crate) job: JobId,
    /// In ms. The type holds a sum of any times.
    pub(crate) moment: u128,
}

/// The job of a device, with its expected end at a moment. A stopped device is expected to go on at that
/// moment.
fn expected_of(activity: Activity, now: Moment) -> Option<Expected>
    ensures { result ≡ expected_of now activity }
{
    match activity {
        Activity::Running(Some(printing)) => Some(Expected {
            job: printing.job,
            moment: u128::from(printing.end),
        }),
        Activity::Stopped(Some(interrupted)) => Some(Expected {
            job: interrupted.job,
            moment: u128::from(now.millis()) + u128::from(interrupted.left),
        }),
        Activity::Running(None) | Activity::Stopped(None) => None,
    }
}

/// The jobs of the devices, with their expected ends at a moment. The only error is out of memory.
pub(crate) fn on_devices(
    alloc: Global,
    devices: &[DeviceNow],
    now: Moment,
) -> Result<Vec<Expected>, AllocError>
    ensures { IfOk result (λ had. had.items ≡ on_devices now devices.now) }
{
    let mut had = Vec::new(alloc);
    for device in devices {
        if let Some(expected) = expected_of(device.activity, now) {
            had.push(expected)?;
        }
    }
    Ok(had)
}

/// The jobs of the last plan, if one was made, with their completions in ms from the plan's moment on. The
/// only error is out of memory.
pub(crate) fn planned(alloc: Global, plan: Option<&Plan>) -> Result<Vec<Expected>, AllocError>
    ensures { IfOk result (λ expected. expected.items ≡ planned (option_copied plan.entry)) }
{
    let mut expected = Vec::new(alloc);
    if let Some(plan) = plan {
        for class in plan.classes() {
            add_class(&mut expected, class)?;
        }
    }
    Ok(expected)
}

/// Appends the jobs of a class. The only error is out of memory.
fn add_class(expected: &mut Vec<Expected>, class: &PlannedClass) -> Result<(), AllocError>
    ensures { OnOk result (expected.new.items ≡ expected.old.items ++ completions_in class.now) }
{
    for (place, queue) in class.priced.way.queues().iter().enumerate() {
        add_queue(expected, &class.problem, DeviceId::new(place), queue.jobs())?;
    }
    Ok(())
}

/// Appends the jobs that a device prints one after the other, once it is free.
fn add_queue(
    expected: &mut Vec<Expected>,
    class: &ClassProblem,
    device: DeviceId,
    jobs: &[JobId],
) -> Result<(), AllocError>
    ensures { OnOk result (expected.new.items ≡ expected.old.items ++ map (completion class.now) (slots_of_list class.now device (wait_in class.now device) jobs.now)) }
{
    let mut free = wait(class, device);
    for job in jobs {
        free += u128::from(time_or_zero(class, *job, device));
        expected.push(Expected {
            job: *job,
            moment: free,
        })?;
    }
    Ok(())
}

/// The wait of a device, in ms; 0 if the class has none for the device.
fn wait(class: &ClassProblem, device: DeviceId) -> u128
    ensures wait { result ≡ wait_in class.now device }
    ensures short { result ≤ 2 ^ 64 }
{
    match class.waits().get(device.place()) {
        Some(wait) => u128::from(*wait),
        None => 0,
    }
}

/// The time of a job on a capable device, in ms; 0 on any other.
fn time_or_zero(class: &ClassProblem, job: JobId, device: DeviceId) -> u64
    ensures { result ≡ time_on class.now job device }
{
    class.time(job, device).unwrap_or(0)
}

/// The moment at which a job is expected to be complete, if it is one of these.
pub(crate) fn moment_of(expected: &[Expected], job: JobId) -> Option<u128>
    ensures { result ≡ moment_of expected.now job }
{
    let found = find(expected, job)?;
    Some(found.moment)
}

/// The first entry of a job.
fn find(expected: &[Expected], job: JobId) -> Option<&Expected>
    ensures { option_copied result ≡ find (λ e. e.job == job) expected.now }
{
    expected.iter().find(|one| one.job == job)
}
