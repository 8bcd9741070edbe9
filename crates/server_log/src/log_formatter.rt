//! The lines of a log for the turns of a server.
use crate::arrivals::Arrivals;
use crate::calendar::Calendar;
use crate::log::LogLines;
use crate::logged_plan::LoggedPlan;
use crate::overdue::Overdue;
use crate::running_jobs::RunningJobs;
use base_types::{Moment, Text};
use journal::JournaledEngine;
use server::LoggedNote;
use sockets::ConnectionEvent;
use std::alloc::{AllocError, Global};

/// What the lines of a log need besides the turn's own record: the names of a server's devices, the jobs that
/// came, those that devices began, the last plan, and the date.
#[derive(Drop)]
pub struct LogFormatter {
    alloc: Global,
    names: Vec<Text>,
    arrivals: Arrivals,
    begun: RunningJobs,
    overdue: Overdue,
    plan: LoggedPlan,
    calendar: Option<Calendar>,
    /// Whether the lines and the comments of the turn have the date.
    dated: bool,
}

impl LogFormatter {
    /// Creates a formatter of an engine, without a plan and without a date. `names` are those of the devices.
    pub fn new(alloc: Global, names: Vec<Text>, engine: &JournaledEngine) -> LogFormatter {
        LogFormatter {
            alloc,
            names,
            arrivals: Arrivals::new(alloc, engine),
            begun: RunningJobs::new(alloc),
            overdue: Overdue::new(alloc),
            plan: LoggedPlan::new(alloc),
            calendar: None,
            dated: false,
        }
    }

    /// Has the lines dated. `zero` is the time of moment 0, in ms since the beginning of 1970.
    pub fn set_zero(&mut self, zero: u64) {
        self.calendar = Some(Calendar::new(zero));
    }

    /// Begins the lines of a turn. They have the date if something happened in the turn, for the first time or
    /// for the first time of a day.
    pub fn begin(&mut self, moment: Moment, happened: bool) {
        self.dated = match &mut self.calendar {
            Some(calendar) if happened => calendar.takes_day(moment),
            _ => false,
        };
    }

    /// Returns the lines of a turn: the date, connections that came, jobs that came, notes that were received,
    /// jobs that ended or are late, and connections that went. The only error is out of memory.
    pub fn lines(
        &mut self,
        moment: Moment,
        visits: &[ConnectionEvent],
        notes: &[LoggedNote],
        engine: &JournaledEngine,
    ) -> Result<Vec<u8>, AllocError> {
        let news = self.arrivals.take(engine)?;
        self.begun.add(notes)?;
        let ended = self.begun.take_ended(self.alloc, engine)?;
        let late = self.overdue.take(engine, self.begun.jobs(), moment)?;
        let date = self.date()?;
        let mut lines = LogLines::new(self.alloc, &self.names, moment);
        lines.add_date(date.as_deref());
        lines.add_comings(visits);
        lines.add_arrivals(&news.came, engine);
        lines.add_notes(notes, &mut self.plan);
        lines.add_ended(&ended);
        lines.add_unbegun(&news.ended, engine);
        lines.add_late(&late);
        lines.add_goings(visits);
        lines.text()
    }

    /// Returns the date and the connections that came and went in a turn, as comments of a recording. The only
    /// error is out of memory.
    pub fn comments(&self, visits: &[ConnectionEvent]) -> Result<Vec<u8>, AllocError> {
        let date = self.date()?;
        let mut lines = LogLines::comments(self.alloc, &self.names);
        lines.add_date(date.as_deref());
        lines.add_comings(visits);
        lines.add_goings(visits);
        lines.text()
    }

    /// The time of moment 0, if the turn has it.
    fn date(&self) -> Result<Option<String>, AllocError> {
        match &self.calendar {
            Some(calendar) if self.dated => calendar.zero(self.alloc),
            _ => Ok(None),
        }
    }
}
