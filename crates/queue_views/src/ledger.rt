//! What a view needs besides the engine.
use crate::accounts::{AccountBook, DayAccounts};
use crate::clock::Clock;
use crate::figures::PrintedJob;
use crate::last_plan::LastPlan;
use crate::standing::Standings;
use crate::totals::Totals;
use crate::unended::Unended;
use base_types::{DeviceId, JobId, Moment};
use dispatcher::{AllocationSite, DeviceRefusal, Dispatched, Observer, Started};
use events::Cancel;
use job_objects::{Job, JobState};
use plan_prices::Planner;
use server::Engine;
use std::alloc::{AllocError, Global};
use std::mem;
use wires::WireId;

/// The most finished jobs that a view shows.
pub const LAST_FINISHED: usize = 20;

/// The number of begun jobs from which on those are dropped that the engine no longer keeps.
const MANY_BEGUN: usize = 4096;

/// The ms for which printed jobs are kept at least.
const KEPT: u64 = 172_800_000;

/// What a view needs and only an observer of the turns knows. It is the observer of each turn, and is notified of its
/// end: [`Ledger::begin_turn`], the turn, [`Ledger::end_turn`].
#[derive(Drop)]
pub struct Ledger {
    pub(crate) alloc: Global,
    pub(crate) clock: Clock,
    /// The moment of the last turn.
    pub(crate) moment: Moment,
    pub(crate) plan: LastPlan,
    /// The jobs that devices began, in this order.
    begun: Vec<Started>,
    unended: Unended,
    pub(crate) totals: Totals,
    /// The accounts of the jobs, if they are kept.
    book: Option<AccountBook>,
    pub(crate) standings: Standings,
    pub(crate) printed: Vec<PrintedJob>,
    /// Whether memory was refused, to the ledger or to the engine.
    is_lost: bool,
}

impl Observer for Ledger {
    ghost notified = { λ old note new. Unit {0} };

    fn dispatched(&mut self, made: &Dispatched<'_>) {
        if self.keep(made).is_err() {
            self.is_lost = true;
        }
    }

    fn canceled(&mut self, _cancel: Cancel) {}

    fn device_refused(&mut self, _id: WireId, _why: DeviceRefusal) {}

    fn refused(&mut self, place: AllocationSite, _id: Option<WireId>) {
        if place != AllocationSite::Dispatch {
            self.is_lost = true;
        }
    }
}

/// The record of a job, if it was printed.
fn printed_of(clock: &Clock, job: &Job) -> Option<PrintedJob> {
    let ended = job.finished?;
    if job.state != JobState::Completed {
        return None;
    }
    Some(PrintedJob {
        printer: job.needs.printer,
        ended,
        time: clock.between(job.created.millis(), ended.millis()),
    })
}

impl Ledger {
    /// Creates the ledger of an engine. The only error is out of memory.
    pub fn new<P: Planner + Drop>(alloc: Global, engine: &Engine<P>) -> Result<Ledger, AllocError> {
        Ok(Ledger {
            alloc,
            clock: Clock::new(alloc),
            moment: Moment::start(),
            plan: LastPlan::new(alloc),
            begun: Vec::new(alloc),
            unended: Unended::new(alloc, engine)?,
            totals: Totals::new(alloc, engine.settings().printers.len())?,
            book: None,
            standings: Standings::new(alloc, engine)?,
            printed: Vec::new(alloc),
            is_lost: false,
        })
    }

    /// The clock, to be set.
    pub fn clock(&mut self) -> &mut Clock {
        &mut self.clock
    }

    /// The times of the engine's moments.
    pub fn times(&self) -> &Clock {
        &self.clock
    }

    /// The moment of the last turn; the start before the first.
    pub fn moment(&self) -> Moment {
        self.moment
    }

    /// Begins a turn at a moment.
    pub fn begin_turn(&mut self, moment: Moment) {
        self.moment = moment.later(self.moment);
    }

    /// Drops the last plan, as a server that is started again does.
    pub fn drop_plan(&mut self) {
        self.plan.clear();
    }

    /// Takes what the turn changed in the engine. The only error is out of memory, in or since the turn: the
    /// ledger is of no use then.
    pub fn end_turn<P: Planner + Drop>(&mut self, engine: &Engine<P>) -> Result<(), AllocError> {
        if self.is_lost {
            return Err(AllocError);
        }
        self.standings.note(engine, self.moment);
        self.note_jobs(engine)?;
        self.forget(engine);
        Ok(())
    }

    /// Keeps the plan and the starts of a dispatch.
    fn keep(&mut self, made: &Dispatched<'_>) -> Result<(), AllocError> {
        if let Some(plan) = made.plan() {
            self.plan.replace(plan, self.moment)?;
        }
        for started in made.started() {
            self.begun.push(*started)?;
        }
        Ok(())
    }

    /// Has the accounts of all jobs kept that come from now on.
    pub fn keep_accounts(&mut self) {
        self.book = Some(AccountBook::new(self.alloc));
    }

    /// Takes the accounts of the jobs that came since they are kept, by rising id, those of the unfinished jobs as they
    /// are in the engine, and the times of its moments. The only error is out of memory.
    pub fn take_accounts<P: Planner + Drop>(
        &mut self,
        engine: &Engine<P>,
    ) -> Result<DayAccounts, AllocError> {
        for spooled in engine.jobs() {
            if !spooled.job().state.is_finished() {
                self.note_account(engine, spooled.job())?;
            }
        }
        let clock = mem::replace(&mut self.clock, Clock::new(self.alloc));
        let jobs = match self.book.take() {
            Some(book) => book.into_accounts(),
            None => Vec::new(self.alloc),
        };
        Ok(DayAccounts { clock, jobs })
    }

    /// Notes the jobs that came and ended in the turn.
    fn note_jobs<P: Planner + Drop>(&mut self, engine: &Engine<P>) -> Result<(), AllocError> {
        let news = self.unended.take(engine)?;
        for id in &news.came {
            if let Some(job) = engine.job(*id) {
                self.note_account(engine, job)?;
            }
        }
        self.note_ended(engine, &news.ended)
    }

    /// Notes the jobs that ended in the turn.
    fn note_ended<P: Planner + Drop>(
        &mut self,
        engine: &Engine<P>,
        ended: &[JobId],
    ) -> Result<(), AllocError> {
        for id in ended {
            match engine.job(*id) {
                Some(job) => self.note_end(engine, job)?,
                None => self.note_lost(*id),
            }
        }
        Ok(())
    }

    /// Notes a job that has ended.
    fn note_end<P: Planner + Drop>(
        &mut self,
        engine: &Engine<P>,
        job: &Job,
    ) -> Result<(), AllocError> {
        self.totals.add(&self.clock, job);
        if let Some(printed) = printed_of(&self.clock, job) {
            self.printed.push(printed)?;
        }
        self.note_account(engine, job)
    }

    /// Notes that a job has ended and that the engine no longer keeps it.
    fn note_lost(&mut self, id: JobId) {
        if let Some(book) = &mut self.book {
            book.note_lost(id);
        }
    }

    /// Notes the account of a job, if accounts are kept.
    fn note_account<P: Planner + Drop>(
        &mut self,
        engine: &Engine<P>,
        job: &Job,
    ) -> Result<(), AllocError> {
        let device = self.device_of(job.id);
        match &mut self.book {
            Some(book) => book.note(engine.settings(), job, device),
            None => Ok(()),
        }
    }

    /// Drops what no view shows any more.
    fn forget<P: Planner + Drop>(&mut self, engine: &Engine<P>) {
        if self.begun.len() > MANY_BEGUN {
            self.begun
                .retain(|started| engine.job(started.job).is_some());
        }
        let now = self.moment.millis();
        let oldest = match self.printed.first() {
            Some(printed) => printed.ended.millis(),
            None => now,
        };
        if now.saturating_sub(oldest) > KEPT.saturating_mul(2) {
            self.printed.retain(|printed| now.saturating_sub(printed.ended.millis()) <= KEPT);
        }
    }

    /// The start of a job that a device began.
    pub(crate) fn started(&self, job: JobId) -> Option<Started> {
        self.begun
            .iter()
            .rev()
            .find(|started| started.job == job)
            .copied()
    }

    /// The device that began a job.
    pub(crate) fn device_of(&self, job: JobId) -> Option<DeviceId> {
        self.started(job).map(|started| started.device)
    }
}
