//! The problem of a class: its jobs, their times, and the wait of each device.
ghost use Rattle.std.specs.Prelude.{◌≡◌, ◌↔◌, ◌==◌, ◌<◌, IsTrue, MatchOption, length, position};
ghost use Rattle.std.specs.List.Sorted.{IsStrictlyIncreasing};
ghost use Rattle.plan_problem.specs.Class.{IsClass, place_of, time_in, wait_in};

use crate::row::{Row, is_row};
use base_types::{DeviceId, JobId, Limits};
use std::marker::Model;

/// The problem of one class: its jobs by rising id, the time of each able pair, and the wait of
/// each device, in the order of the settings. In clauses it is a record of these lists.
#[derive(Drop)]
pub struct ClassProblem {
    ids: Vec<JobId>,
    rows: Vec<Row>,
    waits: Vec<u64>,
}

impl Model for ClassProblem {
    ghost use Rattle.plan_problem.specs.Class.{Class, IsClass};

    ghost Value = { Class };

    ghost view = { λ c. record { ids = c.ids.items; rows = c.rows.items; waits = c.waits.items } };

    ghost invariant = { λ c. IsClass (record { ids = c.ids.items; rows = c.rows.items; waits = c.waits.items }) };
}

impl ClassProblem {
    /// The class problem of these jobs, with a row for each, and these waits in ms. [`is_class`] tests
    /// whether they are a class problem.
    pub fn from_rows(ids: Vec<JobId>, rows: Vec<Row>, waits: Vec<u64>) -> ClassProblem
        requires { IsClass (record { ids = ids.items; rows = rows.items; waits = waits.items }) }
        ensures { result ≡ record { ids = ids.items; rows = rows.items; waits = waits.items } }
    {
        ClassProblem { ids, rows, waits }
    }

    /// The jobs of the class, by rising id.
    pub fn ids(&self) -> &[JobId]
        ensures ids { result.now ≡ self.now.ids }
        ensures class { IsClass self.now }
    {
        &self.ids
    }

    /// The rows of times, one for each job.
    pub fn rows(&self) -> &[Row]
        ensures rows { result.now ≡ self.now.rows }
        ensures class { IsClass self.now }
    {
        &self.rows
    }

    /// The wait of each device, in ms.
    pub fn waits(&self) -> &[u64]
        ensures waits { result.now ≡ self.now.waits }
        ensures class { IsClass self.now }
    {
        &self.waits
    }

    /// The place of a job among the jobs of the class; `None` if it isn't among them.
    pub fn place(&self, job: JobId) -> Option<usize>
        ensures { MatchOption result (place_of self.now.ids job ≡ length self.now.ids)
            (λ place. (place_of self.now.ids job ≡ place) × (place < length self.now.ids)) }
    {
        self.ids().binary_search(&job).ok()
    }

    /// The time of a job on a device, in ms; `None` if the device isn't able, or the job or the device isn't
    /// of the class.
    pub fn time(&self, job: JobId, device: DeviceId) -> Option<u64>
        ensures time { result ≡ time_in self.now job device }
        ensures class { IsClass self.now }
    {
        let rows = self.rows();
        let place = self.place(job)?;
        rows[place].times().get(device.place()).copied().flatten()
    }

    /// The wait of a device of the class, in ms.
    pub fn wait(&self, device: DeviceId) -> u64
        requires { device < length self.now.waits }
        ensures wait { result ≡ wait_in self.now device }
        ensures class { IsClass self.now }
    {
        self.waits[device.place()]
    }
}

/// The first place of a job in a list.
pub fn place_in(ids: &[JobId], job: JobId) -> Option<usize>
    ensures { result ≡ position (λ id. id == job) ids.now }
{
    ids.iter().position(|id| *id == job)
}

/// Returns whether the ids, rows and waits are a class problem: the ids rise, each job has a row and each row
/// a time for each device, and all numbers are in range.
pub fn is_class(ids: &[JobId], rows: &[Row], waits: &[u64]) -> bool
    ensures { IsTrue result ↔ IsClass (record { ids = ids.now; rows = rows.now; waits = waits.now }) }
{
    ids.len() <= Limits::UNFINISHED_JOBS
        && waits.len() <= Limits::DEVICES
        && rows.len() == ids.len()
        && rises(ids)
        && rows.iter().all(|row| is_row(row.times(), waits.len()))
        && waits.iter().all(|wait| *wait <= Limits::WAIT)
}

/// Returns whether each id is above the id before it.
fn rises(ids: &[JobId]) -> bool
    ensures { IsTrue result ↔ IsStrictlyIncreasing ids.now }
{
    for place in 1..ids.len() {
        if ids[place].number() <= ids[place - 1].number() {
            return false;
        }
    }
    true
}
