//! [`LogLines`] appends the lines of a log: each for a connection, a plan, a job or a refusal.
use crate::logged_plan::LoggedPlan;
use crate::overdue::Late;
use crate::running_jobs::Ended;
use base_types::{DeviceId, JobId, Moment, Text};
use dispatcher::{AllocationSite, DeviceRefusal};
use job_objects::{Job, JobState};
use journal::JournaledEngine;
use plan_text::{name_of, put_job_words};
use quotes::{Quoted, Word};
use server::LoggedNote;
use sockets::{CloseReason, ConnectionEvent};
use std::alloc::{AllocError, Global};
use std::net::SocketAddr;
use wires::{Door, WireId};

/// LogLines with the same word at the beginning of each.
#[derive(Drop)]
pub(crate) struct LogLines<'a> {
    alloc: Global,
    names: &'a [Text],
    /// The ms since the start, at the beginning of each line. `None` if each line is a comment of a recording.
    millis: Option<u64>,
    text: Vec<u8>,
    /// Whether memory for some of the text was refused.
    is_cut: bool,
}

impl<'a> LogLines<'a> {
    /// Creates lines for a moment, none so far. `names` are those of the devices.
    pub(crate) fn new(alloc: Global, names: &'a [Text], moment: Moment) -> LogLines<'a> {
        LogLines {
            alloc,
            names,
            millis: Some(moment.millis()),
            text: Vec::new(alloc),
            is_cut: false,
        }
    }

    /// Creates comments of a recording, none so far. `names` are those of the devices.
    pub(crate) fn comments(alloc: Global, names: &'a [Text]) -> LogLines<'a> {
        LogLines {
            alloc,
            names,
            millis: None,
            text: Vec::new(alloc),
            is_cut: false,
        }
    }

    /// Returns the whole text, each line with its line feed. The error is that memory for any of it was
    /// refused.
    pub(crate) fn text(self) -> Result<Vec<u8>, AllocError> {
        let mut text = self.text;
        if self.is_cut {
            return Err(AllocError);
        }
        if !text.is_empty() {
            text.push(b'\n')?;
        }
        Ok(text)
    }

    /// Adds the lines for the notes of the engine.
    pub(crate) fn add_notes(&mut self, notes: &[LoggedNote], plan: &mut LoggedPlan) {
        for one in notes {
            self.add_one(one, plan);
        }
        self.add_plan(plan, false);
    }

    /// Adds the lines for connections that came, and for accepts that failed.
    pub(crate) fn add_comings(&mut self, visits: &[ConnectionEvent]) {
        for visit in visits {
            match *visit {
                ConnectionEvent::Came { id, door, peer } => self.add_open(id, door, peer),
                ConnectionEvent::Missed(door) => self.add_missed(door),
                ConnectionEvent::Went { .. } => {}
            }
        }
    }

    /// Adds the lines for connections that went.
    pub(crate) fn add_goings(&mut self, visits: &[ConnectionEvent]) {
        for visit in visits {
            if let ConnectionEvent::Went { id, leave } = *visit {
                self.add_close(id, leave);
            }
        }
    }

    /// Adds the line for the date, if there is one: the time of moment 0.
    pub(crate) fn add_date(&mut self, zero: Option<&str>) {
        if let Some(zero) = zero {
            self.begin("clock ");
            self.put(zero.as_bytes());
        }
    }

    /// Adds the lines for jobs that came.
    pub(crate) fn add_arrivals(&mut self, came: &[JobId], engine: &JournaledEngine) {
        for id in came {
            if let Some(job) = engine.job(*id) {
                self.add_arrival(job, engine);
            }
        }
    }

    /// Adds the lines for jobs that ended on devices.
    pub(crate) fn add_ended(&mut self, ended: &[Ended]) {
        for one in ended {
            self.add_job(end_word(one.state), one.started.job, one.started.device);
        }
    }

    /// Adds the lines for jobs that ended before any device began them.
    pub(crate) fn add_unbegun(&mut self, ended: &[JobId], engine: &JournaledEngine) {
        for id in ended {
            let word = end_word(engine.job(*id).map(|job| job.state));
            let id = id.number();
            self.begin(word);
            self.append(format!(in self.alloc; " {id}"));
        }
    }

    /// Adds the lines for jobs that are late.
    pub(crate) fn add_late(&mut self, late: &[Late]) {
        for one in late {
            let seconds = one.seconds;
            self.add_job("late", one.started.job, one.started.device);
            self.append(format!(in self.alloc; " {seconds} s"));
        }
    }

    /// Adds the line for a job that came: its printer, its owner, its impressions in all copies, and its name.
    fn add_arrival(&mut self, job: &Job, engine: &JournaledEngine) {
        let id = job.id.number();
        let printer = match engine.settings().printers.get(job.needs.printer.place()) {
            Some(printer) => printer.name.as_bytes(),
            None => b"-",
        };
        let owner = Word(job.owner.as_bytes());
        let (pages, copies) = (
            u64::from(job.needs.impressions),
            u64::from(job.needs.copies),
        );
        let impressions = pages.saturating_mul(copies);
        let (printer, name) = (Word(printer), Quoted(job.name.as_bytes()));
        self.begin("job");
        self.append(format!(in self.alloc; " {id} {printer} {owner} {impressions} {name}"));
    }

    /// Adds what a note needs: a line, or a word in the line of its plan.
    fn add_one(&mut self, note: &LoggedNote, plan: &mut LoggedPlan) {
        match note {
            LoggedNote::Class { priority, total } => self.record_result(plan.add_class(
                *priority, *total,
            )),
            LoggedNote::Stranded(stranded) => self.record_result(plan.add_stranded(stranded)),
            LoggedNote::Planned => {
                self.add_plan(plan, false);
                plan.begin();
            }
            LoggedNote::Began(started) => {
                self.add_plan(plan, true);
                self.add_job("start", started.job, started.device);
            }
            LoggedNote::Canceled(cancel) => {
                self.add_plan(plan, false);
                self.add_job("cancel", cancel.job, cancel.device);
            }
            LoggedNote::DeviceRefused(_, why) => {
                self.add_plan(plan, false);
                self.add_device_refused(why);
            }
            LoggedNote::Refused(place, id) => {
                self.add_plan(plan, false);
                self.add_refused(*place, *id);
            }
        }
    }

    /// Adds the line of the last plan, if it is due. `begins` indicates whether the plan begins a job.
    fn add_plan(&mut self, plan: &mut LoggedPlan, begins: bool) {
        if plan.take_due(begins) {
            self.begin("plan");
            self.put(plan.totals());
            self.put(plan.news());
        }
    }

    /// Adds the line for a job and its device.
    fn add_job(&mut self, word: &str, job: JobId, device: DeviceId) {
        self.begin_line();
        let done = put_job_words(self.alloc, &mut self.text, word, self.names, job, device);
        self.record_result(done);
    }

    /// Adds the line for a device's connection that was refused, with the name that the peer gave, if it gave
    /// one.
    fn add_device_refused(&mut self, why: &DeviceRefusal) {
        match why {
            DeviceRefusal::UnknownName(name) => self.add_reason(name.as_bytes(), "unknown"),
            DeviceRefusal::Connected(device) => {
                self.add_reason(name_of(self.names, *device), "connected")
            }
            DeviceRefusal::Fault(Some(device)) => {
                self.add_reason(name_of(self.names, *device), "fault")
            }
            DeviceRefusal::Fault(None) => self.add_reason(b"-", "fault"),
        }
    }

    /// Adds the line for the name of a device and the reason for its refusal.
    fn add_reason(&mut self, name: &[u8], reason: &str) {
        self.begin("refused device ");
        self.put(name);
        self.append(format!(in self.alloc; " {reason}"));
    }

    /// Adds the line for memory that was refused.
    fn add_refused(&mut self, place: AllocationSite, id: Option<WireId>) {
        let word = place_word(place);
        self.begin("no memory");
        self.append(format!(in self.alloc; " {word}"));
        if let Some(id) = id {
            self.append(format!(in self.alloc; " of connection {id}"));
        }
    }

    /// Adds the line for a connection that came.
    fn add_open(&mut self, id: WireId, door: Door, peer: SocketAddr) {
        let door = door.option();
        self.begin("open");
        self.append(format!(in self.alloc; " {id} {door} {peer}"));
    }

    /// Adds the line for a door at which an accept failed.
    fn add_missed(&mut self, door: Door) {
        let door = door.option();
        self.begin("no connection");
        self.append(format!(in self.alloc; " {door}"));
    }

    /// Adds the line for a connection that went.
    fn add_close(&mut self, id: WireId, leave: CloseReason) {
        let leave = leave_word(leave);
        self.begin("close");
        self.append(format!(in self.alloc; " {id} {leave}"));
    }

    /// Ends the line before, if there is one, and begins a line with a word.
    fn begin(&mut self, word: &str) {
        self.begin_line();
        self.put(word.as_bytes());
    }

    /// Ends the line before, if there is one, and begins a line.
    fn begin_line(&mut self) {
        if !self.text.is_empty() {
            self.put(b"\n");
        }
        match self.millis {
            Some(millis) => self.append(format!(in self.alloc; "{millis} ")),
            None => self.put(b"# "),
        }
    }

    /// Appends words, or records that memory for them was refused.
    fn append(&mut self, words: Result<String, AllocError>) {
        match words {
            Ok(words) => self.put(words.as_bytes()),
            Err(_) => self.is_cut = true,
        }
    }

    fn put(&mut self, bytes: &[u8]) {
        let done = self.text.extend_from_slice(bytes);
        self.record_result(done);
    }

    /// Records whether memory was refused.
    fn record_result(&mut self, done: Result<(), AllocError>) {
        if done.is_err() {
            self.is_cut = true;
        }
    }
}

/// The words for the growth that was refused.
fn place_word(place: AllocationSite) -> &'static str {
    match place {
        AllocationSite::Accept => "for a new connection",
        AllocationSite::Feed => "for what came",
        AllocationSite::File => "for a file",
        AllocationSite::Event => "for a request",
        AllocationSite::Dispatch => "for a plan",
        AllocationSite::Reply => "for a reply",
        AllocationSite::Enqueue => "for what is to be sent",
    }
}

/// The word for the reason of a close.
fn leave_word(leave: CloseReason) -> &'static str {
    match leave {
        CloseReason::Served => "served",
        CloseReason::Left => "left",
        CloseReason::Silent => "silent",
        CloseReason::Broken => "broken",
    }
}

/// The word for the state in which a job left its device (RFC 8011, section 5.3.7); `ended` if the server
/// doesn't keep the job.
fn end_word(state: Option<JobState>) -> &'static str {
    match state {
        Some(JobState::Completed) => "completed",
        Some(JobState::Canceled) => "canceled",
        Some(JobState::Aborted) => "aborted",
        Some(JobState::Pending)
        | Some(JobState::PendingHeld)
        | Some(JobState::Processing)
        | Some(JobState::Stopped)
        | None => "ended",
    }
}
