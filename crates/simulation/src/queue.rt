//! The waiting jobs and the free devices.

use crate::day_job::{DayJob, Member};
use crate::policy::Policy;
use std::alloc::{AllocError, Global};

/// A job that begins.
#[derive(Clone, Copy)]
pub struct Start {
    /// The place of the job among the jobs of the day.
    pub job: usize,
    /// The place of its device.
    pub device: usize,
}

/// A waiting job.
#[derive(Clone, Copy)]
struct Waiting {
    job: usize,
    priority: u8,
    /// The time by which jobs of one priority are ordered, the shortest first. It is 0 if the policy keeps
    /// them in the order in which they came.
    length: u64,
    /// The place of the device that the job waits for, if it waits for one alone.
    device: Option<usize>,
}

/// A device, with its load.
#[derive(Clone, Copy)]
struct Device {
    is_free: bool,
    /// The number of jobs that wait for it alone or print on it.
    jobs: usize,
    /// The estimated end of its last job.
    end: u64,
    /// The estimated end of all jobs that are assigned to it.
    assigned_end: u64,
}

/// The estimated end of a job on a device.
#[derive(Clone, Copy)]
struct Ending {
    device: usize,
    end: u64,
}

/// The earlier one of two endings; if both are at one moment, the first.
fn earlier(one: Option<Ending>, other: Option<Ending>) -> Option<Ending> {
    match (one, other) {
        (Some(one), Some(other)) if other.end < one.end => Some(other),
        (Some(one), _) => Some(one),
        (None, other) => other,
    }
}

/// The waiting jobs, and the choice of a device for each.
#[derive(Drop)]
pub struct Queue<'a> {
    policy: Policy,
    jobs: &'a [DayJob],
    /// The waiting jobs, by falling priority, then by rising length, and then in the order in which they came.
    waiting: Vec<Waiting>,
    devices: Vec<Device>,
    /// For each printer, the place among its devices of the device that got the last job.
    last: Vec<usize>,
}

/// A list of this many free devices. The only error is out of memory.
fn free_devices(alloc: Global, count: usize) -> Result<Vec<Device>, AllocError> {
    let mut devices = Vec::with_capacity(alloc, count)?;
    for _ in 0..count {
        devices.push(Device {
            is_free: true,
            jobs: 0,
            end: 0,
            assigned_end: 0,
        })?;
    }
    Ok(devices)
}

/// The first place for each of `printers` printers. The only error is out of memory.
fn first_places(alloc: Global, printers: usize) -> Result<Vec<usize>, AllocError> {
    let mut places = Vec::with_capacity(alloc, printers)?;
    for _ in 0..printers {
        places.push(0)?;
    }
    Ok(places)
}

impl<'a> Queue<'a> {
    /// Creates a queue without jobs, for the jobs of a day, this many printers, and this many free devices.
    /// The only error is out of memory.
    pub fn new(
        alloc: Global,
        policy: Policy,
        jobs: &'a [DayJob],
        printers: usize,
        devices: usize,
    ) -> Result<Queue<'a>, AllocError> {
        let devices = free_devices(alloc, devices)?;
        Ok(Queue {
            policy,
            jobs,
            waiting: Vec::new(alloc),
            devices,
            last: first_places(alloc, printers)?,
        })
    }

    /// The number of jobs that wait for the device at a place alone or print on it.
    fn jobs_of(&self, device: usize) -> usize {
        match self.devices.get(device) {
            Some(device) => device.jobs,
            None => 0,
        }
    }

    /// The device that can print a job and has the fewest jobs; of several the first.
    fn shortest(&self, job: &DayJob) -> Option<usize> {
        let mut found: Option<usize> = None;
        for member in &job.members {
            let is_shorter = match found {
                Some(device) => self.jobs_of(member.device) < self.jobs_of(device),
                None => true,
            };
            if is_shorter && member.time.is_some() {
                found = Some(member.device);
            }
        }
        found
    }

    /// The device that a job has to wait for alone, by the policy.
    fn device_for(&self, job: &DayJob) -> Option<usize> {
        match self.policy {
            Policy::ShortestQueue => self.shortest(job),
            Policy::RoundRobin | Policy::FirstFree | Policy::EndsFirst | Policy::ShortestFirst =>
                None,
        }
    }

    /// The time by which a job is ordered among those of its priority, by the policy.
    fn length_of(&self, job: &DayJob) -> u64 {
        match self.policy {
            Policy::ShortestFirst => job.least_time(),
            Policy::RoundRobin | Policy::FirstFree | Policy::ShortestQueue | Policy::EndsFirst => 0,
        }
    }

    /// The place after the last waiting job that is at least as urgent and, at the same priority, no longer.
    fn place_later(&self, priority: u8, length: u64) -> usize {
        for (place, waiting) in self.waiting.iter().enumerate() {
            let is_longer = waiting.priority == priority && waiting.length > length;
            if is_longer || waiting.priority < priority {
                return place;
            }
        }
        self.waiting.len()
    }

    /// Takes the job at a place of the day, which comes now. The only error is out of memory.
    pub fn take(&mut self, place: usize) -> Result<(), AllocError> {
        let Some(job) = self.jobs.get(place) else {
            return Ok(());
        };
        let waiting = Waiting {
            job: place,
            priority: job.priority,
            length: self.length_of(job),
            device: self.device_for(job),
        };
        let tail = self
            .place_later(waiting.priority, waiting.length)
            .min(self.waiting.len());
        self.waiting.insert(tail, waiting)?;
        if let Some(device) = waiting.device {
            self.count(device);
        }
        Ok(())
    }

    /// Counts one more job that waits for a device alone.
    fn count(&mut self, place: usize) {
        if let Some(device) = self.devices.get_mut(place) {
            device.jobs = device.jobs.saturating_add(1);
        }
    }

    /// Records that the device at a place is free again.
    pub fn free(&mut self, place: usize) {
        if let Some(device) = self.devices.get_mut(place) {
            device.is_free = true;
            device.jobs = device.jobs.saturating_sub(1);
        }
    }

    /// Returns whether a device is free and can print the job of the member.
    fn can_begin(&self, member: Member) -> bool {
        match self.devices.get(member.device) {
            Some(device) => device.is_free && member.time.is_some(),
            None => false,
        }
    }

    /// The place among a printer's devices of the device that got the last job.
    fn last_of(&self, printer: usize) -> usize {
        match self.last.get(printer) {
            Some(place) => *place,
            None => 0,
        }
    }

    /// The first device of a printer that can begin a job, from the device after the last used device,
    /// around to the last used device itself.
    fn next_free(&self, job: &DayJob) -> Option<usize> {
        let count = job.members.len();
        let tail = self.last_of(job.printer).saturating_add(1);
        for step in 0..count {
            let place = tail.saturating_add(step).checked_rem(count)?;
            let member = job.members.get(place)?;
            if self.can_begin(*member) {
                return Some(member.device);
            }
        }
        None
    }

    /// The first device of a printer that can begin a job.
    fn first_free(&self, job: &DayJob) -> Option<usize> {
        for member in &job.members {
            if self.can_begin(*member) {
                return Some(member.device);
            }
        }
        None
    }

    /// The device that a job waits for alone, if that can begin the job.
    fn own_free(&self, waiting: Waiting, job: &DayJob) -> Option<usize> {
        let device = waiting.device?;
        let member = job.members.get(job.place_of(device)?)?;
        if self.can_begin(*member) {
            Some(device)
        } else {
            None
        }
    }

    /// Unassigns all waiting jobs. A device that misses its estimate counts as free now.
    fn unassign(&mut self, now: u64) {
        for device in &mut self.devices {
            device.assigned_end = if device.is_free {
                now
            } else {
                device.end.max(now)
            };
        }
    }

    /// The estimated end of the job of the member, after the jobs that are assigned to its device. `None` if
    /// the device can't print the job.
    fn ending_on(&self, member: Member) -> Option<Ending> {
        let device = self.devices.get(member.device)?;
        Some(Ending {
            device: member.device,
            end: device.assigned_end.saturating_add(member.time?),
        })
    }

    /// The first estimated end of a job, on any device of its printer.
    fn first_ending(&self, job: &DayJob) -> Option<Ending> {
        let mut found = None;
        for member in &job.members {
            found = earlier(found, self.ending_on(*member));
        }
        found
    }

    /// Assigns a job to the device that ends it first. Returns the device if it is free.
    fn assign(&mut self, job: &DayJob) -> Option<usize> {
        let ending = self.first_ending(job)?;
        let device = self.devices.get_mut(ending.device)?;
        device.assigned_end = ending.end;
        if device.is_free {
            Some(ending.device)
        } else {
            None
        }
    }

    /// The device that has to begin a waiting job, by the policy.
    fn choose(&mut self, waiting: Waiting) -> Option<usize> {
        let jobs = self.jobs;
        let job = jobs.get(waiting.job)?;
        match self.policy {
            Policy::RoundRobin => self.next_free(job),
            Policy::FirstFree => self.first_free(job),
            Policy::ShortestQueue => self.own_free(waiting, job),
            Policy::EndsFirst | Policy::ShortestFirst => self.assign(job),
        }
    }

    /// Records the device of its printer that a job got.
    fn note_last(&mut self, start: Start) {
        let Some(job) = self.jobs.get(start.job) else {
            return;
        };
        if let Some(last) = self.last.get_mut(job.printer) {
            *last = job.place_of(start.device).unwrap_or(0);
        }
    }

    /// The estimated time of a job that begins.
    fn time_of(&self, start: Start) -> Option<u64> {
        self.jobs.get(start.job)?.time_on(start.device)
    }

    /// Begins the job that waits at a place.
    fn begin(&mut self, place: usize, start: Start, now: u64) {
        if place < self.waiting.len() {
            self.waiting.remove(place);
        }
        let time = self.time_of(start).unwrap_or(0);
        if let Some(begun) = self.devices.get_mut(start.device) {
            begun.is_free = false;
            begun.end = now.saturating_add(time);
        }
        self.note_last(start);
    }

    /// The first waiting job that a free device has to begin, with the place at which it waits.
    fn first_start(&mut self) -> Option<(usize, Start)> {
        for place in 0..self.waiting.len() {
            let waiting = *self.waiting.get(place)?;
            if let Some(device) = self.choose(waiting) {
                let job = waiting.job;
                return Some((place, Start { job, device }));
            }
        }
        None
    }

    /// Returns whether any device is free.
    fn has_free(&self) -> bool {
        for device in &self.devices {
            if device.is_free {
                return true;
            }
        }
        false
    }

    /// Begins a job now, if a free device can. The job doesn't wait any more then, and the device isn't free.
    pub fn start(&mut self, now: u64) -> Option<Start> {
        if !self.has_free() {
            return None;
        }
        self.unassign(now);
        let (place, start) = self.first_start()?;
        self.begin(place, start, now);
        Some(start)
    }
}
