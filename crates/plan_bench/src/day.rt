//! A day of a print room, event by event: the waiting jobs, the printing devices, and the lengths of prints.

use crate::made_class::{Speed, made_speed};
use crate::random::Random;
use anyhow::{Context, Error, bail};
use base_types::JobId;
use plan_prices::Way;
use plan_problem::{ClassProblem, Row, is_class};
use std::alloc::{AllocError, Global};

/// The course of a day.
#[derive(Clone, Copy)]
pub(crate) enum Course {
    /// Each print takes the estimated time.
    Estimated,
    /// A print takes up to a fifth less or more than estimated, and jobs are canceled.
    Otherwise,
    /// Devices leave and come back.
    Moving,
    /// At each event, many jobs are canceled or come.
    Bursts,
}

/// A waiting job: its impressions, and the able devices as the binary digits of a number.
#[derive(Clone, Copy)]
struct Waiting {
    id: JobId,
    impressions: u64,
    able: u64,
}

/// The state of a day: a moment, the waiting jobs, and for each device its speed, the end of its print, and
/// whether it is away.
#[derive(Drop)]
pub(crate) struct Day {
    course: Course,
    random: Random,
    most: usize,
    next: u32,
    now: u64,
    jobs: Vec<Waiting>,
    speeds: Vec<Speed>,
    ends: Vec<u64>,
    away: Vec<bool>,
}

impl Day {
    /// Creates a day that begins with this number of jobs and of idle devices.
    pub(crate) fn new(
        alloc: Global,
        course: Course,
        jobs: usize,
        devices: usize,
        seed: u64,
    ) -> Result<Day, Error> {
        let mut day = Day {
            course,
            random: Random::new(seed),
            most: jobs,
            next: 1,
            now: 0,
            jobs: Vec::new(alloc),
            speeds: Vec::new(alloc),
            ends: vec![in alloc; 0; devices]?,
            away: vec![in alloc; false; devices]?,
        };
        for _ in 0..devices {
            day.speeds.push(made_speed(&mut day.random))?;
        }
        for _ in 0..jobs {
            day.take_job()?;
        }
        Ok(day)
    }

    /// The class of the waiting jobs.
    pub(crate) fn class(&self, alloc: Global) -> Result<ClassProblem, Error> {
        let mut ids = Vec::new(alloc);
        let mut rows = Vec::new(alloc);
        for job in &self.jobs {
            ids.push(job.id)?;
            rows.push(self.row(alloc, job)?)?;
        }
        let mut waits = Vec::new(alloc);
        for end in &self.ends {
            waits.push(end.saturating_sub(self.now))?;
        }
        if !is_class(&ids, &rows, &waits) {
            bail!("beyond the limits of a class");
        }
        Ok(ClassProblem::from_rows(ids, rows, waits))
    }

    /// The times of a job. The job's own device is always able.
    fn row(&self, alloc: Global, job: &Waiting) -> Result<Row, AllocError> {
        let own = self.own_device(job.id);
        let mut times = Vec::new(alloc);
        for (device, speed) in self.speeds.iter().enumerate() {
            let there = self.away.get(device) == Some(&false);
            let able = device == own || there && is_able(job.able, device);
            let time = speed.time(job.impressions);
            times.push(if able { Some(time) } else { None })?;
        }
        Ok(Row::new(times))
    }

    /// A job's own device: jobs have devices in turn.
    fn own_device(&self, id: JobId) -> usize {
        (id.number() as usize)
            .checked_rem(self.speeds.len())
            .unwrap_or(0)
    }

    /// Adds a new waiting job.
    fn take_job(&mut self) -> Result<(), Error> {
        let id = JobId::new(self.next).context("too many jobs")?;
        self.next = self.next.saturating_add(1);
        let impressions = self.random.below(200).saturating_add(1);
        let able = self.random.below(u64::MAX) | self.random.below(u64::MAX);
        self.jobs.push(Waiting {
            id,
            impressions,
            able,
        })?;
        Ok(())
    }

    /// Plays the next event: a job comes or is canceled, or a device leaves or comes back. Else each idle
    /// device begins the first job of its list, and time passes to the end of the next print.
    pub(crate) fn step(&mut self, way: &Way) -> Result<(), Error> {
        if self.course == Course::Bursts {
            return self.burst();
        }
        match self.random.below(5) {
            0 | 1 if self.jobs.len() < self.most => self.take_job(),
            2 => {
                self.disturb();
                Ok(())
            }
            _ => {
                self.begin_all(way);
                self.go_on()
            }
        }
    }

    /// Applies the disturbance of the day's course.
    fn disturb(&mut self) {
        match self.course {
            Course::Estimated | Course::Bursts => {}
            Course::Otherwise => {
                if self.jobs.len() > self.most / 2 {
                    self.cancel();
                }
            }
            Course::Moving => {
                let device = self.random.below(self.away.len() as u64) as usize;
                if let Some(away) = self.away.get_mut(device) {
                    *away = !*away;
                }
            }
        }
    }

    /// Cancels a waiting job.
    fn cancel(&mut self) {
        let at = self.random.below(self.jobs.len() as u64) as usize;
        if at < self.jobs.len() {
            self.jobs.remove(at);
        }
    }

    /// Cancels a sixteenth of the most jobs at once, or lets as many come.
    fn burst(&mut self) -> Result<(), Error> {
        let is_full = self.jobs.len() >= self.most;
        for _ in 0..self.most / 16 {
            if is_full {
                self.cancel();
            } else {
                self.take_job()?;
            }
        }
        Ok(())
    }

    /// Makes each idle device begin the first job of its list.
    fn begin_all(&mut self, way: &Way) {
        for (device, queue) in way.queues().iter().enumerate() {
            if let Some(first) = queue.jobs().first() {
                self.begin(device, *first);
            }
        }
    }

    /// Makes a device begin a job, if the device is idle.
    fn begin(&mut self, device: usize, id: JobId) {
        if self.ends.get(device).copied().unwrap_or(u64::MAX) > self.now {
            return;
        }
        let time = self.time_on(device, id);
        let lasts = self.lasts(time);
        if let Some(end) = self.ends.get_mut(device) {
            *end = self.now.saturating_add(lasts);
        }
        self.jobs.retain(|job| job.id != id);
    }

    /// The time of a job on a device, in ms.
    fn time_on(&self, device: usize, id: JobId) -> u64 {
        match self.speeds.get(device) {
            Some(speed) => speed.time(impressions_of(&self.jobs, id)),
            None => 0,
        }
    }

    /// The length of a print whose estimate is `time`, in ms.
    fn lasts(&mut self, time: u64) -> u64 {
        if self.course != Course::Otherwise {
            return time;
        }
        let part = self.random.below(400).saturating_add(800);
        (time / 1000).saturating_mul(part).max(1)
    }

    /// Moves on to the next end of a print, or by one minute where no print ends earlier.
    fn go_on(&mut self) -> Result<(), Error> {
        let mut next = self.now.saturating_add(60_000);
        for end in &self.ends {
            if *end > self.now {
                next = next.min(*end);
            }
        }
        self.now = next;
        if self.jobs.is_empty() {
            self.take_job()?;
        }
        Ok(())
    }
}

/// The impressions of a job in a list.
fn impressions_of(jobs: &[Waiting], id: JobId) -> u64 {
    match jobs.iter().find(|job| job.id == id) {
        Some(job) => job.impressions,
        None => 0,
    }
}

/// Returns whether a device is among the able devices, the binary digits of a number.
fn is_able(able: u64, device: usize) -> bool {
    able.wrapping_shr(u32::try_from(device).unwrap_or(0)) & 1 == 1
}
