//! The times that a planner reads, with the number of its looks.
ghost use Rattle.std.specs.Prelude.{◌≡◌, ℕ, ◌+◌, ◌*◌, ◌^◌, ◌<◌, ◌≤◌, [], IfOk, None, length, slice_index_or};
ghost use Rattle.plan_problem.specs.Class.{Class, IsClass, place_of, time_in};
ghost use Rattle.plan_solver.specs.Entries.{IsRead, IsReadRow};

use crate::costs::{Costs, TimeRow, UNABLE};
use crate::marks::marks;
use base_types::{DeviceId, JobId};
use plan_problem::ClassProblem;
use std::alloc::{AllocError, Global};

/// A class problem whose times are read one by one. Each read is counted as a look.
pub trait Times {
    ghost use Rattle.std.specs.Prelude.{ℕ};
    ghost use Rattle.plan_problem.specs.Class.{Class};

    ghost class: { Self → Class };

    ghost looked: { Self → ℕ };

    /// The jobs of the class, by rising id.
    fn ids(&self) -> &[JobId]
        ensures ids { result.now ≡ (class self.now).ids }
        ensures class { IsClass (class self.now) };

    /// The wait of each device, in ms.
    fn waits(&self) -> &[u64]
        ensures { result.now ≡ (class self.now).waits };

    /// The number of looks.
    fn looks(&self) -> u64
        ensures { result ≡ looked self.now };

    /// The time of a job on a device in ms, `None` if the device isn't able. The call is one look.
    fn time(&mut self, job: JobId, device: DeviceId) -> Option<u64>
        requires { looked self.old < 2 ^ 63 }
        ensures time { result ≡ time_in (class self.old) job device }
        ensures class { class self.new ≡ class self.old }
        ensures looked { looked self.new ≡ looked self.old + 1 };
}

/// A class problem, the number of looks at its times, and the place of the job of the last look, since the
/// next look mostly is at the same job.
#[derive(Drop)]
pub struct Counted<'a> {
    class: &'a ClassProblem,
    looks: u64,
    near: usize,
}

impl<'a> Counted<'a> {
    /// A class problem without a look.
    pub fn new(class: &'a ClassProblem) -> Counted<'a>
        ensures class { result.class.now ≡ class.now }
        ensures looks { result.looks ≡ 0 }
    {
        Counted {
            class,
            looks: 0,
            near: 0,
        }
    }
}

impl<'a> Times for Counted<'a> {
    ghost class = { λ counted. counted.class.now };

    ghost looked = { λ counted. counted.looks };

    fn ids(&self) -> &[JobId] {
        self.class.ids()
    }

    fn waits(&self) -> &[u64] {
        self.class.waits()
    }

    fn looks(&self) -> u64 {
        self.looks
    }

    fn time(&mut self, job: JobId, device: DeviceId) -> Option<u64> {
        self.looks += 1;
        self.near = place_near(self.class, job, self.near);
        entry(self.class, self.near, device)
    }
}

/// The place of a job in the class, or the number of jobs if the job isn't in the class. The place `near` is
/// tried first.
fn place_near(class: &ClassProblem, job: JobId, near: usize) -> usize
    ensures { result ≡ place_of class.now.ids job }
{
    let ids = class.ids();
    if near < ids.len() && ids[near] == job {
        return near;
    }
    match class.place(job) {
        Some(place) => place,
        None => ids.len(),
    }
}

/// The entry of a row of the class; `None` if there is no such row.
fn entry(class: &ClassProblem, place: usize, device: DeviceId) -> Option<u64>
    ensures { result ≡ slice_index_or (slice_index_or class.now.rows place []) device None }
{
    match class.rows().get(place) {
        Some(row) => row.times().get(device.place()).copied().flatten(),
        None => None,
    }
}

/// The jobs, waits and times of a class problem, and the marks of the jobs.
#[derive(Drop)]
pub(crate) struct Entries {
    pub(crate) ids: Vec<JobId>,
    pub(crate) costs: Costs,
    pub(crate) marks: Vec<u64>,
}

/// Reads each time once. The only error is out of memory.
pub(crate) fn read<T: Times>(alloc: Global, times: &mut T) -> Result<Entries, AllocError>
    requires room { T.looked times.old < 2 ^ 62 }
    ensures read { IfOk result (λ entries. IsRead (T.class times.old) entries) }
    ensures class { IsClass (T.class times.old) }
    ensures same { T.class times.new ≡ T.class times.old }
    ensures looked { T.looked times.new ≤ T.looked times.old + length (T.class times.old).ids * length (T.class times.old).waits }
{
    let ids = Vec::from_slice(alloc, times.ids())?;
    let waits = Vec::from_slice(alloc, times.waits())?;
    let mut rows = Vec::with_capacity(alloc, ids.len())?;
    for place in 0..ids.len() {
        rows.push(read_row(alloc, times, ids[place], waits.len())?)?;
    }
    let costs = Costs { waits, rows };
    let marks = marks(alloc, &costs)?;
    Ok(Entries { ids, costs, marks })
}

/// Reads the times of a job. The only error is out of memory.
fn read_row<T: Times>(
    alloc: Global,
    times: &mut T,
    job: JobId,
    devices: usize,
) -> Result<TimeRow, AllocError>
    requires { T.looked times.old + devices < 2 ^ 63 }
    ensures read { IfOk result (λ row. IsReadRow (T.class times.old) job devices row) }
    ensures same { T.class times.new ≡ T.class times.old }
    ensures looked { T.looked times.new ≤ T.looked times.old + devices }
{
    let mut entries = Vec::with_capacity(alloc, devices)?;
    for place in 0..devices {
        entries.push(times.time(job, DeviceId::new(place)).unwrap_or(UNABLE))?;
    }
    Ok(TimeRow::new(entries))
}
