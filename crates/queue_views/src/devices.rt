//! The printers and the devices of a view.
use crate::ledger::Ledger;
use crate::standing::Standing;
use crate::totals::PrinterTotals;
use crate::view::{DeviceState, DeviceView, MediumView, PrinterView, TakenJob};
use base_types::{Activity, DeviceId, DeviceNow, JobId, Medium, Moment, PrinterId};
use job_objects::Job;
use plan_prices::Planner;
use plan_problem::rate;
use server::Engine;
use server_log::{is_overdue, lateness};
use settings_file::PrinterSettings;
use std::alloc::{AllocError, Global};

/// The ms of a second.
const SECOND: u64 = 1000;

/// The impressions of a job in all copies.
pub(crate) fn impressions_of(job: &Job) -> u64 {
    u64::from(job.needs.impressions).saturating_mul(u64::from(job.needs.copies))
}

/// A job on a device, with the time that it still takes and its end, in ms.
#[derive(Clone, Copy)]
struct Left {
    job: JobId,
    left: u64,
    end: Option<u64>,
}

/// The job that a device has at a moment.
fn left_on(activity: Activity, now: Moment) -> Option<Left> {
    match activity {
        Activity::Running(Some(printing)) => Some(Left {
            job: printing.job,
            left: printing.end.saturating_sub(now.millis()),
            end: Some(printing.end),
        }),
        Activity::Stopped(Some(interrupted)) => Some(Left {
            job: interrupted.job,
            left: interrupted.left,
            end: None,
        }),
        Activity::Running(None) | Activity::Stopped(None) => None,
    }
}

/// The impressions that are printed of a job that still takes a time in ms on a device; `None` if it takes none.
fn done_of(job: &Job, device: &DeviceNow, left: u64) -> Option<u64> {
    if left == 0 {
        return None;
    }
    let rate = u64::from(rate(&job.needs, device));
    let missing = left
        .saturating_add(rate.saturating_sub(1))
        .checked_div(rate)?;
    Some(impressions_of(job).saturating_sub(missing))
}

/// The job that a device has.
fn taken_by<P: Planner + Drop>(
    engine: &Engine<P>,
    device: &DeviceNow,
    now: Moment,
) -> Option<TakenJob> {
    let left = left_on(device.activity, now)?;
    let job = engine.job(left.job)?;
    Some(TakenJob {
        job: left.job,
        impressions: impressions_of(job),
        done: done_of(job, device, left.left),
        end: left.end,
        canceled: job.state.is_finished(),
    })
}

/// The media of a device.
fn media_of(alloc: Global, media: &[Medium]) -> Result<Vec<MediumView>, AllocError> {
    let mut views = Vec::with_capacity(alloc, media.len())?;
    for medium in media {
        views.push(MediumView {
            name: medium.name.copied(alloc)?,
            loaded: medium.loaded,
        })?;
    }
    Ok(views)
}

/// A printer of an engine.
fn printer_of<P: Planner + Drop>(
    alloc: Global,
    engine: &Engine<P>,
    id: PrinterId,
    printer: &PrinterSettings,
    totals: PrinterTotals,
) -> Result<PrinterView, AllocError> {
    let mut devices = Vec::new(alloc);
    for device in printer.devices.devices() {
        devices.push(*device)?;
    }
    Ok(PrinterView {
        name: printer.name.copied(alloc)?,
        paused: engine.is_paused(id),
        devices,
        totals,
    })
}

impl Ledger {
    /// The printers of an engine. The only error is out of memory.
    pub(crate) fn printers<P: Planner + Drop>(
        &self,
        engine: &Engine<P>,
    ) -> Result<Vec<PrinterView>, AllocError> {
        let mut views = Vec::new(self.alloc);
        for (place, printer) in engine.settings().printers.iter().enumerate() {
            let id = PrinterId::new(place);
            let totals = self.totals.of(id);
            views.push(printer_of(self.alloc, engine, id, printer, totals)?)?;
        }
        Ok(views)
    }

    /// The devices of an engine at a moment. The only error is out of memory.
    pub(crate) fn devices<P: Planner + Drop>(
        &self,
        engine: &Engine<P>,
        now: Moment,
    ) -> Result<Vec<DeviceView>, AllocError> {
        let mut views = Vec::new(self.alloc);
        for (place, settings) in engine.settings().devices.iter().enumerate() {
            let id = DeviceId::new(place);
            if let Some(device) = engine.device(id) {
                let name = settings.name.copied(self.alloc)?;
                let stood = self.standings.of(id);
                views.push(DeviceView {
                    name,
                    state: self.state_of(engine, id, stood.standing, now),
                    since: stood.since,
                    taken: taken_by(engine, device, now),
                    media: media_of(self.alloc, &device.media)?,
                    busy_until: Some(device.not_before).filter(|from| *from > now.millis()),
                })?;
            }
        }
        Ok(views)
    }

    /// The state of a device at a moment.
    fn state_of<P: Planner + Drop>(
        &self,
        engine: &Engine<P>,
        id: DeviceId,
        standing: Standing,
        now: Moment,
    ) -> DeviceState {
        let job = match standing {
            Standing::Away => return DeviceState::Away,
            Standing::Stopped => return DeviceState::Stopped,
            Standing::Ready => return DeviceState::Ready,
            Standing::Printing(job) => job,
        };
        match self.started(job) {
            Some(started) if started.device == id => {
                let late = lateness(engine, started, now);
                if is_overdue(late, started.time) {
                    let seconds = late / SECOND;
                    return DeviceState::Late { seconds };
                }
                DeviceState::Printing
            }
            _ => DeviceState::Printing,
        }
    }
}
