//! The record of a server's jobs while it plays.

use crate::job::{RecordedJob, RecordedPrint};
use base_types::{Activity, DeviceId, JobId, Limits, Stranded};
use dispatcher::Started;
use job_objects::Job;
use plan_solver::AugmentingPaths;
use server::{Engine, LoggedNote};
use std::alloc::{AllocError, Global};

/// The jobs that were seen, and their prints.
#[derive(Drop)]
pub(crate) struct Recorder {
    alloc: Global,
    /// The jobs, by rising id.
    pub(crate) jobs: Vec<RecordedJob>,
    /// The numbers of the jobs' ids.
    ids: Vec<u32>,
    /// The places of the jobs that were ready, in the order in which they became so.
    pub(crate) ready: Vec<usize>,
    /// The prints, by rising start.
    pub(crate) prints: Vec<RecordedPrint>,
    /// The jobs for which the last plan found no device.
    pub(crate) stranded: Vec<Stranded>,
    /// The places of the jobs that weren't finished when they were last seen.
    unfinished: Vec<usize>,
    /// The places of the prints that haven't ended.
    running: Vec<usize>,
    /// The number of the first id that hasn't been looked for.
    next: u32,
}

/// The greatest number of a job that was begun according to a note; 0 if there is none.
fn last_begun(notes: &[LoggedNote]) -> u32 {
    let mut last = 0;
    for note in notes {
        if let LoggedNote::Began(started) = note {
            last = started.job.number().max(last);
        }
    }
    last
}

/// The job with the id of a number, if the server keeps it.
fn job_numbered(engine: &Engine<AugmentingPaths>, number: u32) -> Option<&Job> {
    let id = JobId::new(number)?;
    engine.job(id)
}

/// Returns whether a device has a job.
fn has(engine: &Engine<AugmentingPaths>, device: usize, job: JobId) -> bool {
    let Some(device) = engine.device(DeviceId::new(device)) else {
        return false;
    };
    match device.activity {
        Activity::Running(Some(printing)) => printing.job == job,
        Activity::Stopped(Some(interrupted)) => interrupted.job == job,
        Activity::Running(None) | Activity::Stopped(None) => false,
    }
}

impl Recorder {
    /// Creates an empty record.
    pub(crate) fn new(alloc: Global) -> Recorder {
        Recorder {
            alloc,
            jobs: Vec::new(alloc),
            ids: Vec::new(alloc),
            ready: Vec::new(alloc),
            prints: Vec::new(alloc),
            stranded: Vec::new(alloc),
            unfinished: Vec::new(alloc),
            running: Vec::new(alloc),
            next: JobId::FIRST,
        }
    }

    /// Records the changes of a server up to a moment, and its notes. The only error is out of memory.
    pub(crate) fn record(
        &mut self,
        engine: &Engine<AugmentingPaths>,
        notes: &[LoggedNote],
        now: u64,
    ) -> Result<(), AllocError> {
        self.find_jobs(engine, last_begun(notes))?;
        self.record_notes(notes, now)?;
        self.note_jobs(engine, now)?;
        self.end_prints(engine, now);
        Ok(())
    }

    /// Finds the new jobs. A new job that has ended and isn't kept any more is left out. The only error is
    /// out of memory.
    fn find_jobs(
        &mut self,
        engine: &Engine<AugmentingPaths>,
        least: u32,
    ) -> Result<(), AllocError> {
        for number in self.next..=Limits::LAST_JOB_ID {
            let found = job_numbered(engine, number);
            if found.is_none() && number > least {
                return Ok(());
            }
            self.next = number.saturating_add(1);
            if let Some(job) = found {
                self.add(job)?;
            }
        }
        Ok(())
    }

    /// Adds a new job. The only error is out of memory.
    fn add(&mut self, job: &Job) -> Result<(), AllocError> {
        let place = self.jobs.len();
        self.jobs.push(RecordedJob::new(job))?;
        self.ids.push(job.id.number())?;
        self.unfinished.push(place)?;
        Ok(())
    }

    /// Records notes. The only error is out of memory.
    fn record_notes(&mut self, notes: &[LoggedNote], now: u64) -> Result<(), AllocError> {
        for note in notes {
            match note {
                LoggedNote::Planned => self.stranded.clear(),
                LoggedNote::Stranded(stranded) => self.stranded.push(*stranded)?,
                LoggedNote::Began(started) => self.begin(*started, now)?,
                _ => {}
            }
        }
        Ok(())
    }

    /// Records that a device begins a job. The only error is out of memory.
    fn begin(&mut self, started: Started, now: u64) -> Result<(), AllocError> {
        let Ok(job) = self.ids.binary_search(&started.job.number()) else {
            return Ok(());
        };
        if let Some(recorded) = self.jobs.get_mut(job) {
            recorded.begun = true;
        }
        self.running.push(self.prints.len())?;
        self.prints.push(RecordedPrint {
            job,
            device: started.device.place(),
            start: now,
            end: None,
        })?;
        Ok(())
    }

    /// Records the states of the jobs that weren't finished. The only error is out of memory.
    fn note_jobs(&mut self, engine: &Engine<AugmentingPaths>, now: u64) -> Result<(), AllocError> {
        for step in 0..self.unfinished.len() {
            self.note_job(engine, step, now)?;
        }
        let jobs = &self.jobs;
        self.unfinished.retain(|place| is_unfinished(jobs, *place));
        Ok(())
    }

    /// Records the state of the unfinished job at a place. The only error is out of memory.
    fn note_job(
        &mut self,
        engine: &Engine<AugmentingPaths>,
        step: usize,
        now: u64,
    ) -> Result<(), AllocError> {
        let Some(place) = self.unfinished.get(step).copied() else {
            return Ok(());
        };
        let Some(recorded) = self.jobs.get_mut(place) else {
            return Ok(());
        };
        let Some(job) = engine.job(recorded.id) else {
            return Ok(());
        };
        if recorded.note(self.alloc, job, now)? {
            self.ready.push(place)?;
        }
        Ok(())
    }

    /// Ends the prints whose devices don't have their jobs any more.
    fn end_prints(&mut self, engine: &Engine<AugmentingPaths>, now: u64) {
        for step in 0..self.running.len() {
            self.end_print(engine, step, now);
        }
        let prints = &self.prints;
        self.running.retain(|place| is_running(prints, *place));
    }

    /// Ends the print at a place of `running`, if its device doesn't have its job any more.
    fn end_print(&mut self, engine: &Engine<AugmentingPaths>, step: usize, now: u64) {
        let Some(place) = self.running.get(step).copied() else {
            return;
        };
        let Some(print) = self.prints.get_mut(place) else {
            return;
        };
        if let Some(job) = self.jobs.get(print.job)
            && !has(engine, print.device, job.id)
        {
            print.end = Some(now);
        }
    }
}

/// Returns whether the job at a place isn't finished.
fn is_unfinished(jobs: &[RecordedJob], place: usize) -> bool {
    match jobs.get(place) {
        Some(job) => !job.state.is_finished(),
        None => false,
    }
}

/// Returns whether the print at a place hasn't ended.
fn is_running(prints: &[RecordedPrint], place: usize) -> bool {
    match prints.get(place) {
        Some(print) => print.end.is_none(),
        None => false,
    }
}
