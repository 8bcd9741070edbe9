//! The jobs of a view, and the view itself.
use crate::devices::impressions_of;
use crate::ledger::{LAST_FINISHED, Ledger};
use crate::view::{FinishedJob, JobView, NeedsView, Prospect, QueueView};
use base_types::{Activity, Cause, DeviceId, DeviceNow, JobId, Moment, Needs, Sides, Text};
use job_objects::{Job, JobState};
use plan_prices::Planner;
use server::Engine;
use spool::SpooledJob;
use std::alloc::{AllocError, Global};

/// Returns whether one of the texts is this one.
fn has(texts: &[Text], wanted: &Text) -> bool {
    texts.iter().any(|text| text.is(wanted.as_bytes()))
}

/// Returns whether a device prints the formats and sides of a job, and has its finishings.
fn suits(device: &DeviceNow, needs: &Needs) -> bool {
    let sides = match needs.sides {
        Sides::One => true,
        Sides::LongEdge | Sides::ShortEdge => device.rate_two.is_some(),
    };
    let formats = needs
        .formats
        .iter()
        .all(|format| has(&device.formats, format));
    sides && formats && device.finishings.has(needs.finishings)
}

/// Returns whether a device can hold the media of a job, which are loaded if `loaded`.
fn holds(device: &DeviceNow, needs: &Needs, loaded: bool) -> bool {
    device.media.iter().any(|medium| medium.name.is(needs.media.as_bytes())
        && (medium.loaded || !loaded))
}

/// Returns whether a device can print a job once its media are loaded, or once it runs, as the cause states.
fn helps(device: &DeviceNow, needs: &Needs, cause: Cause) -> bool {
    match cause {
        Cause::Media => suits(device, needs) && holds(device, needs, false),
        Cause::Running => suits(device, needs) && holds(device, needs, true),
        Cause::NoDevice | Cause::Format | Cause::Sides | Cause::Finishings => false,
    }
}

/// The devices of a job's printer that can print the job once they have what the cause names.
fn helpers_of<P: Planner + Drop>(
    alloc: Global,
    engine: &Engine<P>,
    needs: &Needs,
    cause: Cause,
) -> Result<Vec<DeviceId>, AllocError> {
    let mut helpers = Vec::new(alloc);
    let Some(printer) = engine.settings().printers.get(needs.printer.place()) else {
        return Ok(helpers);
    };
    for id in printer.devices.devices() {
        if let Some(device) = engine.device(*id) {
            if helps(device, needs, cause) {
                helpers.push(*id)?;
            }
        }
    }
    Ok(helpers)
}

/// The ms at which a device ends its job, if it runs.
fn end_on(device: Option<&DeviceNow>, job: JobId) -> Option<u64> {
    match device?.activity {
        Activity::Running(Some(printing)) if printing.job == job => Some(printing.end),
        _ => None,
    }
}

/// What a job needs.
fn needs_of(alloc: Global, needs: &Needs) -> Result<NeedsView, AllocError> {
    let mut formats = Vec::with_capacity(alloc, needs.formats.len())?;
    for format in &needs.formats {
        formats.push(format.copied(alloc)?)?;
    }
    Ok(NeedsView {
        media: needs.media.copied(alloc)?,
        formats,
        sides: needs.sides,
        finishings: needs.finishings,
    })
}

/// Returns whether a job is finished, and when.
fn end_of(spooled: &SpooledJob) -> Option<Moment> {
    let job = spooled.job();
    if job.state.is_finished() {
        job.finished
    } else {
        None
    }
}

/// The finished jobs, the last first: at most [`LAST_FINISHED`].
fn last_finished(alloc: Global, jobs: &[SpooledJob]) -> Result<Vec<&SpooledJob>, AllocError> {
    let mut finished: Vec<&SpooledJob> = Vec::new(alloc);
    for spooled in jobs {
        if end_of(spooled).is_some() {
            let place = finished
                .iter()
                .take_while(|later| later.is_later(spooled))
                .count();
            finished.insert(place.min(finished.len()), spooled)?;
            finished.truncate(LAST_FINISHED);
        }
    }
    Ok(finished)
}

impl Ledger {
    /// The view of the engine at a moment, or at that of the last turn if that is later. The only error is out of
    /// memory.
    pub fn view<P: Planner + Drop>(
        &self,
        engine: &Engine<P>,
        moment: Moment,
    ) -> Result<QueueView, AllocError> {
        let now = moment.later(self.moment);
        let mut printed = Vec::with_capacity(self.alloc, self.printed.len())?;
        for job in &self.printed {
            printed.push(*job)?;
        }
        Ok(QueueView {
            moment: now,
            clock: self.clock.copied(self.alloc)?,
            printers: self.printers(engine)?,
            devices: self.devices(engine, now)?,
            jobs: self.jobs(engine)?,
            finished: self.finished(engine)?,
            printed,
        })
    }

    /// The unfinished jobs.
    fn jobs<P: Planner + Drop>(&self, engine: &Engine<P>) -> Result<Vec<JobView>, AllocError> {
        let mut views = Vec::new(self.alloc);
        for spooled in engine.jobs() {
            let job = spooled.job();
            if !job.state.is_finished() {
                views.push(self.job(engine, job)?)?;
            }
        }
        Ok(views)
    }

    /// An unfinished job.
    fn job<P: Planner + Drop>(&self, engine: &Engine<P>, job: &Job) -> Result<JobView, AllocError> {
        Ok(JobView {
            id: job.id,
            printer: job.needs.printer,
            owner: job.owner.copied(self.alloc)?,
            name: job.name.copied(self.alloc)?,
            impressions: impressions_of(job),
            came: job.created,
            needs: needs_of(self.alloc, &job.needs)?,
            prospect: self.prospect(engine, job)?,
        })
    }

    /// What is to become of an unfinished job.
    fn prospect<P: Planner + Drop>(
        &self,
        engine: &Engine<P>,
        job: &Job,
    ) -> Result<Prospect, AllocError> {
        match job.state {
            JobState::Processing | JobState::Stopped => Ok(self.taken(engine, job.id)),
            _ if job.held => Ok(Prospect::Held),
            _ if job.incoming => Ok(Prospect::Incoming),
            _ if engine.is_paused(job.needs.printer) => Ok(Prospect::Paused),
            _ => self.waiting(engine, job),
        }
    }

    /// The prospect of a job that a device has.
    fn taken<P: Planner + Drop>(&self, engine: &Engine<P>, id: JobId) -> Prospect {
        match self.device_of(id) {
            Some(device) => Prospect::Taken {
                device,
                end: end_on(engine.device(device), id),
            },
            None => Prospect::Unplanned,
        }
    }

    /// The prospect of a ready job.
    fn waiting<P: Planner + Drop>(
        &self,
        engine: &Engine<P>,
        job: &Job,
    ) -> Result<Prospect, AllocError> {
        if let Some(cause) = self.plan.cause(job.id) {
            let helpers = helpers_of(self.alloc, engine, &job.needs, cause)?;
            return Ok(Prospect::Stranded { cause, helpers });
        }
        match self.plan.planned(job.id) {
            Some(planned) => Ok(Prospect::Planned {
                device: planned.device,
                start: planned.start,
                end: planned.end,
            }),
            None => Ok(Prospect::Unplanned),
        }
    }

    /// The jobs that finished last.
    fn finished<P: Planner + Drop>(
        &self,
        engine: &Engine<P>,
    ) -> Result<Vec<FinishedJob>, AllocError> {
        let mut views = Vec::new(self.alloc);
        for spooled in &last_finished(self.alloc, engine.jobs())? {
            let job = spooled.job();
            views.push(FinishedJob {
                id: job.id,
                printer: job.needs.printer,
                owner: job.owner.copied(self.alloc)?,
                name: job.name.copied(self.alloc)?,
                impressions: impressions_of(job),
                device: self.device_of(job.id),
                state: job.state,
                came: job.created,
                began: job.started,
                ended: end_of(spooled).unwrap_or(job.created),
            })?;
        }
        Ok(views)
    }
}
