//! The jobs of a day, with their times on each device of their printers.

use crate::day_job::{DayJob, Member};
use crate::draft::ListedJob;
use base_types::{Cause, DeviceId, DeviceNow, JobId, Needs, PrinterSet, Stranded};
use dispatcher::Core;
use plan_problem::{able, stranded_cause, time};
use plan_solver::AugmentingPaths;
use rand_core::utils::NextWord;
use rand_pcg::Pcg32;
use std::alloc::{AllocError, Global};
use std::num::{nearest_u64_to_f64, saturating_f64_to_u64};

/// The greatest error of the estimates, in per cent, and the seed of the random numbers.
#[derive(Clone, Copy)]
pub struct Noise {
    pub percent: u8,
    pub seed: u64,
}

/// The jobs of a day with their estimated times, and the ratio of each job's real time to its estimate.
#[derive(Drop)]
pub(crate) struct Day {
    pub(crate) jobs: Vec<DayJob>,
    /// The jobs that no device can print, by their places in the list, counted from 1.
    pub(crate) stranded: Vec<Stranded>,
    parts: Vec<f64>,
}

/// The time of a job on a device in its present state, as the server estimates it.
fn estimate(needs: &Needs, device: DeviceId, now: &DeviceNow, printer: &PrinterSet) -> Option<u64> {
    if able(needs, device, now, printer) {
        Some(time(needs, now))
    } else {
        None
    }
}

/// The ratio of a job's real time to its estimate: a random number that differs from 1 by at most `percent`
/// per cent.
fn part_of(percent: u8, chance: &mut Pcg32) -> f64 {
    let word = chance.next_word();
    // a number from -1 to 1
    let swing = f64::from(word) / 2_147_483_648.0 - 1.0;
    1.0 + swing * f64::from(percent) / 100.0
}

/// The time of a job on a device of a core.
fn time_at(
    core: &Core<AugmentingPaths>,
    device: DeviceId,
    needs: &Needs,
    printer: &PrinterSet,
) -> Option<u64> {
    let now = core.device(device)?;
    estimate(needs, device, now, printer)
}

/// The time of a job on each device of its printer. The only error is out of memory.
fn members_of(
    alloc: Global,
    core: &Core<AugmentingPaths>,
    needs: &Needs,
    printer: &PrinterSet,
) -> Result<Vec<Member>, AllocError> {
    let mut members = Vec::with_capacity(alloc, printer.devices().len())?;
    for device in printer.devices() {
        members.push(Member {
            device: device.place(),
            time: time_at(core, *device, needs, printer),
        })?;
    }
    Ok(members)
}

/// The job of a list as the policies use it. A job whose printer isn't there has no device.
fn day_job(
    alloc: Global,
    core: &Core<AugmentingPaths>,
    job: &ListedJob,
) -> Result<DayJob, AllocError> {
    let printer = job.needs.printer.place();
    let members = match core.settings().printers.get(printer) {
        Some(found) => members_of(alloc, core, &job.needs, &found.devices)?,
        None => Vec::new(alloc),
    };
    Ok(DayJob {
        moment: job.moment,
        priority: job.priority,
        printer,
        members,
    })
}

/// The cause that no device of its printer can print a job.
fn cause_of(core: &Core<AugmentingPaths>, needs: &Needs) -> Cause {
    let Some(printer) = core.settings().printers.get(needs.printer.place()) else {
        return Cause::NoDevice;
    };
    stranded_cause(needs, &printer.devices, core.devices()).unwrap_or(Cause::NoDevice)
}

/// Adds a job that no device can print, by its place in the list.
fn note_stranded(
    stranded: &mut Vec<Stranded>,
    core: &Core<AugmentingPaths>,
    needs: &Needs,
    place: usize,
) -> Result<(), AllocError> {
    let number = u32::try_from(place.saturating_add(1)).unwrap_or(0);
    if let Some(job) = JobId::new(number) {
        let cause = cause_of(core, needs);
        stranded.push(Stranded { job, cause })?;
    }
    Ok(())
}

impl Day {
    /// The day of a list of jobs, by the present state of a core's devices. The only error is out of memory.
    pub(crate) fn new(
        alloc: Global,
        core: &Core<AugmentingPaths>,
        listed: &[ListedJob],
        noise: Noise,
    ) -> Result<Day, AllocError> {
        let mut day = Day {
            jobs: Vec::new(alloc),
            stranded: Vec::new(alloc),
            parts: Vec::new(alloc),
        };
        day.add_all(alloc, core, listed, noise)?;
        Ok(day)
    }

    /// Adds the jobs of a list.
    fn add_all(
        &mut self,
        alloc: Global,
        core: &Core<AugmentingPaths>,
        listed: &[ListedJob],
        noise: Noise,
    ) -> Result<(), AllocError> {
        let mut chance = Pcg32::new(noise.seed, 0);
        for (place, job) in listed.iter().enumerate() {
            self.parts.push(part_of(noise.percent, &mut chance))?;
            self.add(alloc, core, place, job)?;
        }
        Ok(())
    }

    /// Adds the job at a place of a list.
    fn add(
        &mut self,
        alloc: Global,
        core: &Core<AugmentingPaths>,
        place: usize,
        listed: &ListedJob,
    ) -> Result<(), AllocError> {
        let job = day_job(alloc, core, listed)?;
        if !job.is_printable() {
            note_stranded(&mut self.stranded, core, &listed.needs, place)?;
        }
        self.jobs.push(job)?;
        Ok(())
    }

    /// The moment at which the job at a place comes.
    pub(crate) fn moment_of(&self, place: usize) -> u64 {
        match self.jobs.get(place) {
            Some(job) => job.moment,
            None => 0,
        }
    }

    /// Returns whether some device can print the job at a place.
    pub(crate) fn is_printable(&self, place: usize) -> bool {
        match self.jobs.get(place) {
            Some(job) => job.is_printable(),
            None => false,
        }
    }

    /// The real time of the job at a place on a device, at least 1 ms.
    pub(crate) fn real_time(&self, job: usize, device: usize) -> u64 {
        let estimate = match self.jobs.get(job) {
            Some(job) => job.time_on(device).unwrap_or(0),
            None => 0,
        };
        let part = self.parts.get(job).copied().unwrap_or(1.0);
        saturating_f64_to_u64(nearest_u64_to_f64(estimate) * part + 0.5).max(1)
    }
}
