//! The real core, which gets the jobs of a day.

use crate::draft::ListedJob;
use crate::queue::Start;
use crate::request::print_job;
use crate::room::Room;
use base_types::{DeviceId, JobId, Limits, Moment, Report};
use dispatcher::Core;
use events::{Effects, Event, Response, Status};
use plan_solver::AugmentingPaths;
use print_room::Started;
use std::alloc::{AllocError, Global};

/// The result of a job that was sent to the core.
#[derive(Clone, Copy)]
pub(crate) enum Sent {
    Taken,
    /// The core has as many jobs as it may have.
    Busy,
    Refused,
}

/// A core, and the jobs of a day that it is sent.
#[derive(Drop)]
pub(crate) struct Planned<'a> {
    alloc: Global,
    core: &'a mut Core<AugmentingPaths>,
    listed: &'a [ListedJob],
    /// The places of the jobs that were taken, in the order of their ids from 1 on, which is the order of the
    /// list.
    taken: Vec<usize>,
    /// The jobs for which the core had no room when they came, in order.
    door: Vec<usize>,
    /// The number of these jobs that were sent since.
    let_in: usize,
    /// The jobs that a dispatch began and that weren't returned yet.
    begun: Vec<Start>,
}

/// The moment of a number of ms, at most the last moment.
fn moment_at(millis: u64) -> Moment {
    Moment::new(millis.min(Limits::LAST_MOMENT)).unwrap_or(Moment::start())
}

/// The result of a job by the core's response.
fn sent_by(reply: &Effects) -> Sent {
    match &reply.response {
        Response::Ipp(answer) => match answer.status {
            Status::Ok | Status::OkIgnoredOrSubstituted => Sent::Taken,
            Status::Busy => Sent::Busy,
            _ => Sent::Refused,
        },
        _ => Sent::Refused,
    }
}

/// Takes the step of an event, and returns the result of a job by the response.
fn apply_to(
    core: &mut Core<AugmentingPaths>,
    event: Event,
    now: Moment,
) -> Result<Sent, AllocError> {
    let reply = core.apply(event, now)?;
    Ok(sent_by(&reply))
}

/// Takes the step of a report of the device at a place.
pub(crate) fn report_to(
    core: &mut Core<AugmentingPaths>,
    device: usize,
    report: Report,
    now: Moment,
) -> Result<(), AllocError> {
    apply_to(core, Event::Report(DeviceId::new(device), report), now)?;
    Ok(())
}

impl<'a> Planned<'a> {
    /// Creates a core before the first job of a list. Its devices are ready, except those that are away.
    pub(crate) fn new(
        alloc: Global,
        core: &'a mut Core<AugmentingPaths>,
        listed: &'a [ListedJob],
    ) -> Planned<'a> {
        Planned {
            alloc,
            core,
            listed,
            taken: Vec::new(alloc),
            door: Vec::new(alloc),
            let_in: 0,
            begun: Vec::new(alloc),
        }
    }

    /// Sends the job at a place of the list. Returns whether the core had room for it.
    fn send(&mut self, place: usize, now: u64) -> Result<bool, AllocError> {
        let Some(job) = self.listed.get(place) else {
            return Ok(true);
        };
        match self.send_job(job, now)? {
            Sent::Taken => self.taken.push(place)?,
            Sent::Busy => return Ok(false),
            Sent::Refused => {}
        }
        Ok(true)
    }

    /// Sends a job as a Print-Job request.
    fn send_job(&mut self, job: &ListedJob, now: u64) -> Result<Sent, AllocError> {
        let Some(printer) = self.core.settings().printers.get(job.needs.printer.place()) else {
            return Ok(Sent::Refused);
        };
        let request = print_job(self.alloc, printer, job)?;
        apply_to(self.core, Event::PrintJob(request), moment_at(now))
    }

    /// Sends the first job of those for which the core had no room, and has the core plan if it is taken.
    fn send_waiting(&mut self, now: u64) -> Result<(), AllocError> {
        let Some(place) = self.door.get(self.let_in).copied() else {
            return Ok(());
        };
        if !self.send(place, now)? {
            return Ok(());
        }
        self.let_in = self.let_in.saturating_add(1);
        self.dispatch(now)
    }

    /// The place of a job that began.
    fn place_of(&self, job: JobId) -> Option<usize> {
        let before = job.number().saturating_sub(1) as usize;
        self.taken.get(before).copied()
    }

    /// Adds a job that began.
    fn note(&mut self, started: &Started) -> Result<(), AllocError> {
        if let Some(job) = self.place_of(started.job) {
            self.begun.push(Start {
                job,
                device: started.device.place(),
            })?;
        }
        Ok(())
    }

    /// Adds jobs that began.
    fn note_all(&mut self, begun: &[Started]) -> Result<(), AllocError> {
        for started in begun {
            self.note(started)?;
        }
        Ok(())
    }

    /// Has the core plan, and adds the jobs that begin.
    fn dispatch(&mut self, now: u64) -> Result<(), AllocError> {
        let planned = self.core.dispatch(moment_at(now))?;
        let begun = Vec::from_slice(self.alloc, self.core.dispatched(planned).started())?;
        self.note_all(&begun)
    }

    /// The id of the job at a place of the list, if it was taken.
    fn id_of(&self, place: usize) -> Option<u32> {
        let before = self.taken.binary_search(&place).ok()?;
        u32::try_from(before.saturating_add(1)).ok()
    }
}

impl Room for Planned<'_> {
    fn take(&mut self, job: usize, now: u64) -> Result<(), AllocError> {
        if self.let_in < self.door.len() || !self.send(job, now)? {
            self.door.push(job)?;
            return Ok(());
        }
        self.dispatch(now)
    }

    fn end(&mut self, ended: Start, now: u64) -> Result<(), AllocError> {
        if let Some(job) = self.id_of(ended.job) {
            let done = Report::Done { job };
            report_to(self.core, ended.device, done, moment_at(now))?;
        }
        self.dispatch(now)?;
        self.send_waiting(now)
    }

    fn start(&mut self, _now: u64) -> Option<Start> {
        self.begun.pop()
    }
}
