//! The parts of a view.
use crate::clock::Clock;
use crate::figures::PrintedJob;
use crate::totals::PrinterTotals;
use base_types::{Cause, DeviceId, Finishings, JobId, Moment, PrinterId, Sides, Text};
use job_objects::JobState;

/// The queue of a print server at a moment.
#[derive(Drop)]
pub struct QueueView {
    pub moment: Moment,
    pub clock: Clock,
    /// The printers, in the order of the settings.
    pub printers: Vec<PrinterView>,
    /// The devices, in the order of the settings. Several printers may have the same device.
    pub devices: Vec<DeviceView>,
    /// The unfinished jobs, by rising id.
    pub jobs: Vec<JobView>,
    /// The jobs that finished last, the last first: at most [`crate::LAST_FINISHED`].
    pub finished: Vec<FinishedJob>,
    /// The jobs that were printed in the last two days at least, by their ends.
    pub printed: Vec<PrintedJob>,
}

/// A printer, with its devices and totals.
#[derive(Drop)]
pub struct PrinterView {
    pub name: Text,
    pub paused: bool,
    pub devices: Vec<DeviceId>,
    pub totals: PrinterTotals,
}

/// The state of a device.
#[derive(Clone, Copy, PartialEq, Eq)]
pub enum DeviceState {
    /// It isn't connected.
    Away,
    /// It stopped, or hasn't yet reported that it runs.
    Stopped,
    /// It runs, and has no job.
    Ready,
    /// It runs, and has a job.
    Printing,
    /// It prints, and its job should have ended this many seconds ago, by [`server_log::is_overdue`].
    Late { seconds: u64 },
}

/// A device.
#[derive(Drop)]
pub struct DeviceView {
    pub name: Text,
    pub state: DeviceState,
    /// The moment since which it is in this state, or has its job; `None` if it has been since before its ledger
    /// began. A late device is in its state since its job began.
    pub since: Option<Moment>,
    /// The job that it has.
    pub taken: Option<TakenJob>,
    /// The media of the settings, in their order.
    pub media: Vec<MediumView>,
    /// The ms at which it may begin a job, if that is later than the view.
    pub busy_until: Option<u64>,
}

/// A medium that a device can hold.
#[derive(Drop)]
pub struct MediumView {
    pub name: Text,
    pub loaded: bool,
}

/// The job that a device has.
#[derive(Clone, Copy)]
pub struct TakenJob {
    pub job: JobId,
    /// The impressions in all copies.
    pub impressions: u64,
    /// The impressions that are printed: as last reported, and estimated since then. `None` once the estimated end
    /// has passed.
    pub done: Option<u64>,
    /// The ms at which the job is estimated to end; `None` on a stopped device.
    pub end: Option<u64>,
    /// Whether the job was canceled. The device keeps it until it reports its end.
    pub canceled: bool,
}

/// An unfinished job.
#[derive(Drop)]
pub struct JobView {
    pub id: JobId,
    pub printer: PrinterId,
    pub owner: Text,
    pub name: Text,
    /// The impressions in all copies.
    pub impressions: u64,
    pub came: Moment,
    pub needs: NeedsView,
    pub prospect: Prospect,
}

/// What a job needs of a device.
#[derive(Drop)]
pub struct NeedsView {
    pub media: Text,
    pub formats: Vec<Text>,
    pub sides: Sides,
    pub finishings: Finishings,
}

/// What is to become of a job.
#[derive(Drop)]
pub enum Prospect {
    /// A device has it, and is estimated to end it at this ms; `None` on a stopped device.
    Taken {
        device: DeviceId,
        end: Option<u64>,
    },
    /// The last plan has it on a device, from one ms to another.
    Planned {
        device: DeviceId,
        start: u64,
        end: u64,
    },
    /// No device of its printer can print it. The `helpers` are devices that could, once their media are loaded or
    /// they run, as the cause states.
    Stranded {
        cause: Cause,
        helpers: Vec<DeviceId>,
    },
    /// It is held.
    Held,
    /// Documents are still to come.
    Incoming,
    /// Its printer is paused.
    Paused,
    /// No plan was made yet.
    Unplanned,
}

/// A finished job.
#[derive(Drop)]
pub struct FinishedJob {
    pub id: JobId,
    pub printer: PrinterId,
    pub owner: Text,
    pub name: Text,
    /// The impressions in all copies.
    pub impressions: u64,
    /// The device that began it; `None` if none did, or if one did before the ledger began.
    pub device: Option<DeviceId>,
    /// Canceled, aborted or completed.
    pub state: JobState,
    pub came: Moment,
    pub began: Option<Moment>,
    pub ended: Moment,
}
