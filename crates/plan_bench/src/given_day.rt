//! A day whose jobs are given by a text: when each job comes, its priority, and its time on each device.
//!
//! Each line is a job: the moment at which it comes, its priority, and for each device the job's time there or
//! `-` if the device isn't able; moments and times in ms. The jobs are by rising moment.

use anyhow::{Context, Error, bail};
use base_types::JobId;
use plan_prices::Way;
use plan_problem::{ClassProblem, Row, is_class};
use std::alloc::{AllocError, Global};

/// A given job.
#[derive(Drop)]
struct GivenJob {
    id: JobId,
    moment: u64,
    priority: u64,
    times: Vec<Option<u64>>,
}

/// The state of a day: a moment, all jobs, the number of those that have come, the places of those that wait, and
/// for each device the end of its print.
#[derive(Drop)]
pub(crate) struct GivenDay {
    jobs: Vec<GivenJob>,
    come: usize,
    now: u64,
    waiting: Vec<usize>,
    ends: Vec<u64>,
}

impl GivenDay {
    /// Reads a day, at whose first moment the first job comes.
    pub(crate) fn read(alloc: Global, text: &str) -> Result<GivenDay, Error> {
        let mut jobs = Vec::new(alloc);
        let mut devices = 0;
        for line in text.lines() {
            let job = read_job(alloc, line, jobs.len())?;
            devices = job.times.len();
            jobs.push(job)?;
        }
        let mut day = GivenDay {
            jobs,
            come: 0,
            now: 0,
            waiting: Vec::new(alloc),
            ends: vec![in alloc; 0; devices]?,
        };
        day.take_next()?;
        Ok(day)
    }

    /// The number of waiting jobs.
    pub(crate) fn waiting(&self) -> usize {
        self.waiting.len()
    }

    /// The highest priority of a waiting job below this one.
    pub(crate) fn priority_below(&self, bound: u64) -> Option<u64> {
        let mut highest = None;
        for place in &self.waiting {
            let priority = self.priority(*place);
            if priority < bound {
                highest = Some(highest.unwrap_or(0).max(priority));
            }
        }
        highest
    }

    /// The priority of the job at a place.
    fn priority(&self, place: usize) -> u64 {
        match self.jobs.get(place) {
            Some(job) => job.priority,
            None => 0,
        }
    }

    /// The wait of each device, in ms.
    pub(crate) fn waits(&self, alloc: Global) -> Result<Vec<u64>, AllocError> {
        let mut waits = Vec::new(alloc);
        for end in &self.ends {
            waits.push(end.saturating_sub(self.now))?;
        }
        Ok(waits)
    }

    /// The class of the waiting jobs of a priority.
    pub(crate) fn class(
        &self,
        alloc: Global,
        priority: u64,
        waits: Vec<u64>,
    ) -> Result<ClassProblem, Error> {
        let mut ids = Vec::new(alloc);
        let mut rows = Vec::new(alloc);
        for place in &self.waiting {
            let Some(job) = self.jobs.get(*place) else {
                continue;
            };
            if job.priority == priority {
                ids.push(job.id)?;
                rows.push(Row::new(job.times.clone()?))?;
            }
        }
        if !is_class(&ids, &rows, &waits) {
            bail!("beyond the limits of a class");
        }
        Ok(ClassProblem::from_rows(ids, rows, waits))
    }

    /// Makes each idle device begin the first job of its list.
    pub(crate) fn begin_all(&mut self, way: &Way) {
        for (device, queue) in way.queues().iter().enumerate() {
            if let Some(first) = queue.jobs().first() {
                self.begin(device, *first);
            }
        }
    }

    /// Makes a device begin a job, if the device is idle.
    fn begin(&mut self, device: usize, id: JobId) {
        if self.ends.get(device).copied().unwrap_or(u64::MAX) > self.now {
            return;
        }
        let at = (id.number() as usize).saturating_sub(1);
        let end = self.now.saturating_add(self.time_on(device, at));
        if let Some(entry) = self.ends.get_mut(device) {
            *entry = end;
        }
        self.waiting.retain(|place| *place != at);
    }

    /// The time of the job at a place on a device, in ms; 0 if the device isn't able.
    fn time_on(&self, device: usize, place: usize) -> u64 {
        match self.jobs.get(place) {
            Some(job) => job.times.get(device).copied().flatten().unwrap_or(0),
            None => 0,
        }
    }

    /// Goes on to the next event: the end of a print, or the moment at which a job comes. Returns whether there is
    /// one.
    pub(crate) fn go_on(&mut self) -> Result<bool, AllocError> {
        let mut next = u64::MAX;
        if let Some(job) = self.jobs.get(self.come) {
            next = job.moment.max(self.now);
        }
        for end in &self.ends {
            if *end > self.now && *end < next {
                next = *end;
            }
        }
        if next == u64::MAX {
            return Ok(false);
        }
        self.now = next;
        self.take_next()?;
        Ok(true)
    }

    /// Takes the next job, if it has come by now.
    fn take_next(&mut self) -> Result<(), AllocError> {
        let Some(job) = self.jobs.get(self.come) else {
            return Ok(());
        };
        if self.come == 0 || job.moment <= self.now {
            self.now = self.now.max(job.moment);
            self.waiting.push(self.come)?;
            self.come = self.come.saturating_add(1);
        }
        Ok(())
    }
}

/// Reads a job, with the number of jobs before it.
fn read_job(alloc: Global, line: &str, before: usize) -> Result<GivenJob, Error> {
    let mut words = line.split_whitespace();
    let moment = words.next().context("expected a moment")?.parse()?;
    let priority = words.next().context("expected a priority")?.parse()?;
    let mut times = Vec::new(alloc);
    for word in words {
        times.push(if word == "-" {
            None
        } else {
            Some(word.parse()?)
        })?;
    }
    let number = u32::try_from(before.saturating_add(1))?;
    Ok(GivenJob {
        id: JobId::new(number).context("too many jobs")?,
        moment,
        priority,
        times,
    })
}
