//! The jobs of a class, and their class problem.
ghost use Rattle.std.specs.Prelude.{◌≡◌, ◌↔◌, ◌<◌, ℕ, Some, IfOk, IfSome, IsTrue, length, slice_get};
ghost use Rattle.base_types.specs.Device.{Device};
ghost use Rattle.plan_problem.specs.Able.{IsAble};
ghost use Rattle.plan_problem.specs.Time.{IsTime};
ghost use Rattle.plan_problem.specs.Alike.{TellsAble};
ghost use Rattle.plan_problem.specs.ClassJob.{CanBuild, IsClassOf, IsPairTime, IsRowOf, printer_of};

use crate::able_device::able;
use crate::alike::times_of_alike;
use crate::class_problem::ClassProblem;
use crate::job_time::time;
use crate::row::Row;
use base_types::{DeviceId, DeviceNow, JobId, Needs, PrinterSet};
use std::alloc::{AllocError, Global};
use std::marker::Model;

/// A job of a class, with its needs. In clauses it is a record of the same fields.
#[derive(Drop)]
pub struct ClassJob<'a> {
    pub id: JobId,
    pub needs: &'a Needs,
}

impl<'a> Model for ClassJob<'a> {
    ghost use Rattle.plan_problem.specs.ClassJob.{JobOfClass};

    ghost Value = { JobOfClass };

    ghost view = { λ j. record { id = j.id; needs = j.needs.now } };
}

/// The class problem of the jobs on the devices, with the waits in ms: each able pair has the time of the job
/// on the device, and no other pair has one.
///
/// The jobs are by rising id, the devices and the printers in the order of the settings, with a wait for each
/// device. The only error is out of memory.
pub fn build(
    alloc: Global,
    jobs: &[ClassJob],
    devices: &[DeviceNow],
    printers: &[PrinterSet],
    waits: Vec<u64>,
) -> Result<ClassProblem, AllocError>
    requires { CanBuild jobs.now devices.now printers.now waits.items }
    ensures { IfOk result (λ class. IsClassOf jobs.now devices.now printers.now waits.items class) }
{
    let mut ids = Vec::with_capacity(alloc, jobs.len())?;
    let mut rows = Vec::with_capacity(alloc, jobs.len())?;
    for job in jobs {
        let alike = times_of_alike(jobs, &rows, job.needs);
        let row = job_row(alloc, job, devices, printers, alike)?;
        ids.push(job.id)?;
        rows.push(row)?;
    }
    Ok(ClassProblem::from_rows(ids, rows, waits))
}

/// The row of a job: its time on each device, `None` if the device isn't able. `alike` are the times of a job
/// with the same needs, or none.
fn job_row(
    alloc: Global,
    job: &ClassJob,
    devices: &[DeviceNow],
    printers: &[PrinterSet],
    alike: &[Option<u64>],
) -> Result<Row, AllocError>
    requires known_printer { job.now.needs.printer < length printers.now }
    requires alike { (place : ℕ) (device : Device) → slice_get devices.now place ≡ Some device → TellsAble job.now.needs place device (printer_of job.now.needs printers.now) alike.now }
    ensures { IfOk result (λ row. IsRowOf job.now.needs devices.now (printer_of job.now.needs printers.now) row) }
{
    let needs = job.needs;
    let printer = &printers[needs.printer.place()];
    let mut times = Vec::with_capacity(alloc, devices.len())?;
    for (place, device) in devices.iter().enumerate() {
        let place = DeviceId::new(place);
        times.push(pair_time(needs, place, device, printer, alike))?;
    }
    Ok(Row::new(times))
}

/// The time of a job on a device, `None` if the device isn't able.
fn pair_time(
    needs: &Needs,
    device: DeviceId,
    now: &DeviceNow,
    printer: &PrinterSet,
    alike: &[Option<u64>],
) -> Option<u64>
    requires { TellsAble needs.now device now.now printer.now alike.now }
    ensures pair { IsPairTime needs.now device now.now printer.now result }
    ensures in_range { IfSome result IsTime }
{
    if is_able(needs, device, now, printer, alike) {
        Some(time(needs, now))
    } else {
        None
    }
}

/// Returns whether a device is able, which the times of a job with the same needs give if they are known.
fn is_able(
    needs: &Needs,
    device: DeviceId,
    now: &DeviceNow,
    printer: &PrinterSet,
    alike: &[Option<u64>],
) -> bool
    requires { TellsAble needs.now device now.now printer.now alike.now }
    ensures { IsTrue result ↔ IsAble needs.now device now.now printer.now }
{
    match alike.get(device.place()) {
        Some(entry) => entry.is_some(),
        None => able(needs, device, now, printer),
    }
}
