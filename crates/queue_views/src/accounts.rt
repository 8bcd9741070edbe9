//! The accounts of jobs.
use crate::clock::Clock;
use base_types::{DeviceId, Finishings, JobId, Moment, PrinterId, Priority, Sides, Text};
use job_objects::{Job, JobState};
use settings_file::Settings;
use std::alloc::{AllocError, Global};

/// A job of a day, as it was at its end, or at the end of the day.
#[derive(Drop)]
pub struct JobAccount {
    pub id: JobId,
    /// The name of the job's printer.
    pub printer: Text,
    pub owner: Text,
    pub title: Text,
    /// The number of octets of all documents.
    pub octets: usize,
    /// The impressions of one copy: as the client gave them, or estimated from the octets.
    pub impressions: u32,
    pub copies: u32,
    pub sides: Sides,
    pub media: Text,
    /// The format of the first document.
    pub format: Option<Text>,
    pub finishings: Finishings,
    pub priority: Priority,
    /// The name of the device that began the job.
    pub device: Option<Text>,
    /// When the job was made.
    pub came: Moment,
    /// When a device began the job.
    pub began: Option<Moment>,
    /// When the job was completed, canceled or aborted.
    pub ended: Option<Moment>,
    /// The job's state. `None` if the job ended in a turn in which so many did that the server didn't keep it.
    pub state: Option<JobState>,
}

/// The accounts of a day, and the clock of their moments.
#[derive(Drop)]
pub struct DayAccounts {
    pub clock: Clock,
    /// The jobs that came, by rising id.
    pub jobs: Vec<JobAccount>,
}

/// The accounts of the jobs that came, by rising id.
#[derive(Drop)]
pub(crate) struct AccountBook {
    alloc: Global,
    accounts: Vec<JobAccount>,
}

impl JobAccount {
    /// The account of a job. The only error is out of memory.
    fn of(
        alloc: Global,
        settings: &Settings,
        job: &Job,
        device: Option<DeviceId>,
    ) -> Result<JobAccount, AllocError> {
        let printer = printer_name(settings, job.needs.printer);
        Ok(JobAccount {
            id: job.id,
            printer: copy_of(alloc, printer)?.unwrap_or(Text::new(Vec::new(alloc))),
            owner: job.owner.copied(alloc)?,
            title: job.name.copied(alloc)?,
            octets: job.octets,
            impressions: job.needs.impressions,
            copies: job.needs.copies,
            sides: job.needs.sides,
            media: job.needs.media.copied(alloc)?,
            format: copy_of(alloc, job.needs.formats.first())?,
            finishings: job.needs.finishings,
            priority: job.priority,
            device: copy_of(alloc, device_name(settings, device))?,
            came: job.created,
            began: job.started,
            ended: job.finished,
            state: Some(job.state),
        })
    }

    /// The ms by a clock for which the job waited for its device, if a device began it.
    pub fn waited(&self, clock: &Clock) -> Option<u64> {
        let began = self.began?;
        Some(clock.between(self.came.millis(), began.millis()))
    }

    /// The ms by a clock for which a device printed the job, if a device began it and it has ended.
    pub fn printed(&self, clock: &Clock) -> Option<u64> {
        let (began, ended) = (self.began?, self.ended?);
        Some(clock.between(began.millis(), ended.millis()))
    }
}

/// The name of a printer; `None` if the settings have no such printer.
fn printer_name(settings: &Settings, printer: PrinterId) -> Option<&Text> {
    match settings.printers.get(printer.place()) {
        Some(printer) => Some(&printer.name),
        None => None,
    }
}

/// The name of a device, if there is one.
fn device_name(settings: &Settings, device: Option<DeviceId>) -> Option<&Text> {
    match settings.devices.get(device?.place()) {
        Some(device) => Some(&device.name),
        None => None,
    }
}

/// A copy of a text, if there is one. The only error is out of memory.
fn copy_of(alloc: Global, text: Option<&Text>) -> Result<Option<Text>, AllocError> {
    match text {
        Some(text) => Ok(Some(text.copied(alloc)?)),
        None => Ok(None),
    }
}

impl AccountBook {
    /// Creates a book without accounts.
    pub(crate) fn new(alloc: Global) -> AccountBook {
        AccountBook {
            alloc,
            accounts: Vec::new(alloc),
        }
    }

    /// The place of the account of a job, if it is in the book.
    fn place_of(&self, id: JobId) -> Option<usize> {
        let last = self.accounts.last()?;
        if last.id < id {
            return None;
        }
        self.accounts.iter().rposition(|account| account.id == id)
    }

    /// The account of a job, if it is in the book.
    fn account(&mut self, id: JobId) -> Option<&mut JobAccount> {
        let place = self.place_of(id)?;
        self.accounts.get_mut(place)
    }

    /// Adds the account of a job, or renews it. The only error is out of memory.
    pub(crate) fn note(
        &mut self,
        settings: &Settings,
        job: &Job,
        device: Option<DeviceId>,
    ) -> Result<(), AllocError> {
        let made = JobAccount::of(self.alloc, settings, job, device)?;
        match self.account(job.id) {
            Some(account) => *account = made,
            None => self.accounts.push(made)?,
        }
        Ok(())
    }

    /// Notes that a job has ended and that its state isn't known.
    pub(crate) fn note_lost(&mut self, id: JobId) {
        if let Some(account) = self.account(id) {
            account.state = None;
        }
    }

    /// The accounts, by rising id.
    pub(crate) fn into_accounts(self) -> Vec<JobAccount> {
        self.accounts
    }
}
