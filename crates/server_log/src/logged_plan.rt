//! [`LoggedPlan`] keeps what the log reports of the last plan, and decides whether it gets a line.
use base_types::{Cause, JobId, Priority, Stranded};
use plan_text::{put_class_word, put_stranded_word};
use std::alloc::{AllocError, Global};
use std::mem;

/// The last plan.
///
/// A plan gets a line if it begins a job, or if it leaves a job without a device that had one in the plan
/// before, or for another cause. While a job waits the server plans each second, and a line for each plan, or
/// a word for each stranded job in each line, would fill a log with what it has already.
#[derive(Drop)]
pub(crate) struct LoggedPlan {
    alloc: Global,
    /// The words for the totals of the classes.
    totals: Vec<u8>,
    /// The jobs that no device can print, by rising id: those of the plan, and those of the plan before.
    stranded: Vec<Stranded>,
    stranded_before: Vec<Stranded>,
    /// The words for the stranded jobs that are news.
    news: Vec<u8>,
    is_pending: bool,
}

/// Returns whether jobs, by rising id, have a job of this id with the same cause.
fn has(jobs: &[Stranded], job: JobId, cause: Cause) -> bool {
    match jobs.binary_search_by_key(&job, |stranded| stranded.job) {
        Ok(place) => jobs[place].cause == cause,
        Err(_) => false,
    }
}

impl LoggedPlan {
    /// Creates the record without a plan.
    pub(crate) fn new(alloc: Global) -> LoggedPlan {
        LoggedPlan {
            alloc,
            totals: Vec::new(alloc),
            stranded: Vec::new(alloc),
            stranded_before: Vec::new(alloc),
            news: Vec::new(alloc),
            is_pending: false,
        }
    }

    /// Begins a new plan.
    pub(crate) fn begin(&mut self) {
        mem::swap(&mut self.stranded, &mut self.stranded_before);
        self.stranded.clear();
        self.totals.clear();
        self.news.clear();
        self.is_pending = true;
    }

    /// Adds a class with its total of completion times in ms. The only error is out of memory.
    pub(crate) fn add_class(&mut self, priority: Priority, total: u64) -> Result<(), AllocError> {
        put_class_word(self.alloc, &mut self.totals, priority, total)
    }

    /// Adds a job that no device can print. The only error is out of memory.
    pub(crate) fn add_stranded(&mut self, stranded: &Stranded) -> Result<(), AllocError> {
        if !has(&self.stranded_before, stranded.job, stranded.cause) {
            put_stranded_word(self.alloc, &mut self.news, *stranded)?;
        }
        self.stranded.push(*stranded)?;
        Ok(())
    }

    /// Returns whether the plan's line is due. `begins` indicates whether the plan begins a job. The line is due
    /// at most once for each plan.
    pub(crate) fn take_due(&mut self, begins: bool) -> bool {
        let is_due = self.is_pending && (begins || !self.news.is_empty());
        self.is_pending = false;
        is_due
    }

    /// The words for the totals of the plan's classes, from the highest priority down.
    pub(crate) fn totals(&self) -> &[u8] {
        &self.totals
    }

    /// The words for the jobs that no device can print, each with its cause, but for those of the plan before
    /// with the same cause.
    pub(crate) fn news(&self) -> &[u8] {
        &self.news
    }
}
