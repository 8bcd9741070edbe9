//! The starts of the jobs of a plan, as lines.
ghost use Rattle.std.specs.Prelude.{◌≡◌, ◌++◌, All, Contains, OnOk, codes};
ghost use Rattle.std.specs.Fmt.{decimal};
ghost use Rattle.plan_prices.specs.Prices.{IsProved};
ghost use Rattle.plan_audit.specs.Check.{start_line, job_start, job_starts, plan_starts};

use base_types::{DeviceId, JobId, Text};
use plan_prices::{PlannedClass, start_of};
use plan_problem::ClassProblem;
use plan_text::name_of;
use std::alloc::{AllocError, Global};

/// Appends the lines of the starts of all jobs. The only error is out of memory.
pub fn put_starts(
    alloc: Global,
    output: &mut Vec<u8>,
    devices: &[Text],
    classes: &[PlannedClass],
) -> Result<(), AllocError>
    requires { All (λ class. IsProved class.problem class.priced.way class.priced.prices class.priced.total) classes.now }
    ensures { OnOk result (output.new.items ≡ output.old.items ++ plan_starts devices.now classes.now) }
{
    for class in classes {
        put_class_starts(alloc, output, devices, class)?;
    }
    Ok(())
}

/// Appends the lines of the starts of the jobs of a class. The only error is out of memory.
fn put_class_starts(
    alloc: Global,
    output: &mut Vec<u8>,
    devices: &[Text],
    class: &PlannedClass,
) -> Result<(), AllocError>
    requires { IsProved class.now.problem class.now.priced.way class.now.priced.prices class.now.priced.total }
    ensures { OnOk result (output.new.items ≡ output.old.items ++ job_starts devices.now class.now class.now.problem.ids) }
{
    for job in class.problem.ids() {
        put_job_start(alloc, output, devices, class, *job)?;
    }
    Ok(())
}

/// Appends the line of the start of a job of a class. The only error is out of memory.
fn put_job_start(
    alloc: Global,
    output: &mut Vec<u8>,
    devices: &[Text],
    class: &PlannedClass,
    job: JobId,
) -> Result<(), AllocError>
    requires proved { IsProved class.now.problem class.now.priced.way class.now.priced.prices class.now.priced.total }
    requires known { Contains class.now.problem.ids job }
    ensures { OnOk result (output.new.items ≡ output.old.items ++ job_start devices.now class.now job) }
{
    match start_of(&class.problem, &class.priced.way, job) {
        Some(found) => put_slot(alloc, output, devices, &class.problem, job, found),
        None => Ok(()),
    }
}

/// Appends the line of a job with this device and this start. The only error is out of memory.
#[tactic(auto, using(crate::proofs::Slots::start_line_is))]
fn put_slot(
    alloc: Global,
    output: &mut Vec<u8>,
    devices: &[Text],
    class: &ClassProblem,
    job: JobId,
    slot: (DeviceId, u64),
) -> Result<(), AllocError>
    ensures { OnOk result (output.new.items ≡ output.old.items ++ start_line devices.now class.now (record { job = job; device = slot.0; start = slot.1 })) }
{
    let (device, start) = slot;
    let time = class.time(job, device).unwrap_or(0);
    let end = u128::from(start) + u128::from(time);
    put_start(alloc, output, job, name_of(devices, device), start, end)
}

/// Appends the line of a start. The only error is out of memory.
fn put_start(
    alloc: Global,
    output: &mut Vec<u8>,
    job: JobId,
    name: &[u8],
    start: u64,
    end: u128,
) -> Result<(), AllocError>
    ensures { OnOk result (output.new.items ≡ output.old.items ++ (codes "start " ++ (decimal job ++ (codes " " ++ (name.now ++ (codes " " ++ (decimal start ++ (codes " " ++ (decimal end ++ codes "\n"))))))))) }
{
    let number = job.number();
    let words = format!(in alloc; "start {number} ")?;
    let times = format!(in alloc; " {start} {end}\n")?;
    output.extend_from_slice(words.as_bytes())?;
    output.extend_from_slice(name)?;
    output.extend_from_slice(times.as_bytes())?;
    Ok(())
}
