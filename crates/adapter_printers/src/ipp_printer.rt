//! A printer with IPP, without sockets.
use crate::address::IppAddress;
use crate::answer::{JobAnswer, PrinterJobState, job_answer, message_of};
use crate::exchange::Exchange;
use crate::job::JobWish;
use crate::printer_event::{Breach, PrinterEvent};
use crate::task::{Task, TaskStage};
use crate::task_outcome::{LeftOut, ReplyBreach, TaskOutcome};
use adapter_core::{AdapterState, JobOrder, Pauses};
use base_types::Text;
use ipp_codec::EncodeFault;
use ipp_requests::{
    ask_of_job, ask_of_printer, cancel_job, is_stopped, loaded_media, print_job, reply_in,
};
use std::alloc::{AllocError, Global};
use text::drop_prefix;

/// The time after which the printer's state is asked again, in ms.
const BETWEEN_STATES: u64 = 10_000;

/// The first and the longest pause after which a state that couldn't be read is asked again, in ms.
const FIRST_PAUSE: u64 = 1_000;

const LONGEST_PAUSE: u64 = 60_000;

/// The time after which a sent job is first asked about, and the longest time between two such requests, in
/// ms.
const FIRST_LOOK: u64 = 125;

const BETWEEN_LOOKS: u64 = 1_000;

/// The most octets of a chunk.
const CHUNK: usize = 65_536;

/// The number of octets that determine the format of a document.
const PREFIX: usize = 512;

/// The attributes that are requested of a printer.
const PRINTER_NAMES: [&[u8]; 9] = [
    b"printer-state",
    b"printer-state-reasons",
    b"media-ready",
    b"media-default",
    b"media-supported",
    b"sides-supported",
    b"finishings-supported",
    b"copies-supported",
    b"document-format-supported",
];

/// The attributes that are requested of a job.
const JOB_NAMES: [&[u8]; 3] = [b"job-id", b"job-state", b"job-impressions-completed"];

/// A printer with IPP: its task, and the content of its replies.
#[derive(Drop)]
pub struct IppPrinter {
    alloc: Global,
    address: IppAddress,
    task: Task,
    stage: TaskStage,
    wish: JobWish,
    /// A job that was given up, and is to be canceled at the printer.
    cancels: Option<i32>,
    exchange: Exchange,
    /// The bytes that are to be written before all others.
    output: Vec<u8>,
    /// The number of octets of the chunk that are still to be written.
    chunk: usize,
    /// The body of the printer's last reply about its state.
    state: Option<Vec<u8>>,
    ask_at: u64,
    /// The times at which the job is asked about.
    looks: Pauses,
    impressions: u32,
    /// Whether the printer prints, by its last state. `None` if that isn't known: before the first state, and
    /// after a failure.
    prints: Option<bool>,
    /// Whether it was reported that the printer's state can't be read.
    unread: bool,
    /// The times at which a state that couldn't be read is asked again.
    tries: Pauses,
    left_out: Option<LeftOut>,
    media: Option<Vec<Text>>,
    /// Whether the last task ended with a reply that shows that the job goes on.
    answered: bool,
    /// Whether the job is to be sent again from its start.
    restarts: bool,
    /// The times at which the job is sent.
    retries: Pauses,
    /// The printer's last answer about the job, if that is that it is busy.
    busy: Option<ReplyBreach>,
}

impl IppPrinter {
    /// Creates a printer to which no request was sent.
    pub fn new(alloc: Global, address: IppAddress) -> IppPrinter {
        IppPrinter {
            alloc,
            address,
            task: Task::Nothing,
            stage: TaskStage::None,
            wish: JobWish::none(),
            cancels: None,
            exchange: Exchange::new(alloc),
            output: Vec::new(alloc),
            chunk: 0,
            state: None,
            ask_at: 0,
            looks: Pauses::new(FIRST_LOOK, BETWEEN_LOOKS),
            impressions: 0,
            prints: None,
            unread: false,
            tries: Pauses::new(FIRST_PAUSE, LONGEST_PAUSE),
            left_out: None,
            media: None,
            answered: false,
            restarts: false,
            retries: Pauses::new(FIRST_PAUSE, LONGEST_PAUSE),
            busy: None,
        }
    }

    /// Begins a job.
    pub fn begin(&mut self, order: &JobOrder) {
        self.wish = JobWish::of(self.alloc, order);
        self.stage = TaskStage::Waits;
        self.looks = Pauses::new(FIRST_LOOK, BETWEEN_LOOKS);
        self.impressions = 0;
        self.left_out = None;
        self.restarts = false;
        self.retries = Pauses::new(FIRST_PAUSE, LONGEST_PAUSE);
        self.busy = None;
    }

    /// Drops the job. A job that the printer has is to be canceled there, and then the printer's state is
    /// asked.
    pub fn drop_job(&mut self) {
        if let TaskStage::Printing(job) = self.stage {
            self.cancels = Some(job);
            self.ask_at = 0;
        }
        self.stage = TaskStage::None;
        self.end_task();
    }

    /// Returns whether a connection is wanted: there is a task now.
    pub fn wants_connection(&mut self, adapter: &AdapterState, now: u64) -> bool {
        if self.task == Task::Nothing {
            self.task = self.next_task(adapter, now);
        }
        self.task != Task::Nothing
    }

    /// Returns the next task: a cancel first, then a due question about the printer's state, then the job.
    fn next_task(&self, adapter: &AdapterState, now: u64) -> Task {
        if let Some(job) = self.cancels {
            return Task::Cancel(job);
        }
        if now >= self.ask_at {
            return Task::Ask;
        }
        match self.stage {
            TaskStage::Printing(job) if self.looks.is_due(now) => Task::Follow(job),
            TaskStage::Waits if self.can_send(now) && has_prefix(adapter) => Task::Print,
            _ => Task::Nothing,
        }
    }

    /// Returns whether the job may be sent: the printer's state is known, and the pause after a busy printer's
    /// answer is over.
    fn can_send(&self, now: u64) -> bool {
        self.prints.is_some() && self.retries.is_due(now)
    }

    /// Returns whether the printer is to answer for the job now.
    pub fn owes_answer(&self, adapter: &AdapterState) -> bool {
        match self.stage {
            TaskStage::None => false,
            TaskStage::Waits => has_prefix(adapter),
            TaskStage::Sending | TaskStage::Sent | TaskStage::Printing(_) => true,
        }
    }

    /// Removes and returns whether the job is to be sent again from its start.
    pub fn take_restart(&mut self) -> bool {
        std::mem::replace(&mut self.restarts, false)
    }

    /// Removes and returns whether the last task ended with a reply that shows that the job goes on.
    pub fn take_answered(&mut self) -> bool {
        std::mem::replace(&mut self.answered, false)
    }

    /// Gives up the job, for which the printer hasn't answered for too long. A job that the printer has is
    /// canceled there once it is dropped.
    pub fn give_up(&mut self) -> Breach {
        if !self.has_job() {
            self.stage = TaskStage::None;
        }
        match self.busy.take() {
            Some(breach) => Breach::Reply(breach),
            None => Breach::Silent,
        }
    }

    /// Begins the task's request on a new connection. `format` is that of the document, if the task sends it.
    /// The only error is out of memory.
    pub fn open(&mut self, format: &str) -> Result<(), AllocError> {
        self.exchange = Exchange::new(self.alloc);
        self.chunk = 0;
        self.output.clear();
        self.write_request(format)?;
        if self.task == Task::Print {
            self.stage = TaskStage::Sending;
        }
        Ok(())
    }

    /// Writes the request of the task. The only error is out of memory.
    fn write_request(&mut self, format: &str) -> Result<(), AllocError> {
        let uri = self.address.uri.as_bytes();
        let body = match self.task {
            Task::Nothing => return Ok(()),
            Task::Ask => ask_of_printer(self.alloc, uri, &PRINTER_NAMES),
            Task::Follow(job) => ask_of_job(self.alloc, uri, job, &JOB_NAMES),
            Task::Cancel(job) => cancel_job(self.alloc, uri, job),
            Task::Print => return self.write_prefix(format),
        };
        let body = encoded(body)?;
        self.exchange
            .write_request(self.alloc, &self.address, &body, &mut self.output)
    }

    /// Writes the beginning of the request that sends the job. The only error is out of memory.
    fn write_prefix(&mut self, format: &str) -> Result<(), AllocError> {
        let job = self.wish.job();
        let name = format!(in self.alloc; "printd-{job}")?;
        let state: &[u8] = match &self.state {
            Some(state) => state,
            None => &[],
        };
        let Some(printer) = reply_in(state) else {
            return Err(AllocError);
        };
        let ticket = self.wish.ticket(name.as_bytes(), format, &printer);
        let left_out = self.wish.left_out(&ticket);
        let body = encoded(print_job(self.alloc, self.address.uri.as_bytes(), &ticket))?;
        if left_out.is_something() && self.busy.is_none() {
            self.left_out = Some(left_out);
        }
        self.exchange
            .write_prefix(&self.address, &body, &mut self.output)
    }

    /// The bytes that are to be written before all others.
    pub fn text(&self) -> &[u8] {
        &self.output
    }

    /// Returns how many octets of the job may be written now, if no text is to be written.
    pub fn octets(&self) -> usize {
        self.chunk
    }

    /// Records that `count` bytes are written: those of the text, or, if there is none, of the job.
    pub fn pass(&mut self, count: usize) -> Result<(), AllocError> {
        if !self.output.is_empty() {
            let count = count.min(self.output.len());
            drop_prefix(&mut self.output, count);
            return Ok(());
        }
        self.chunk = self.chunk.saturating_sub(count);
        if self.chunk == 0 {
            self.exchange.end_chunk(&mut self.output)?;
        }
        Ok(())
    }

    /// Begins the next chunk of the job, or ends the job, if nothing else is to be written. The only error is
    /// out of memory.
    pub fn go_on(&mut self, adapter: &mut AdapterState) -> Result<(), AllocError> {
        if self.stage != TaskStage::Sending || !self.output.is_empty() || self.chunk > 0 {
            return Ok(());
        }
        if adapter.is_copy_sent() {
            adapter.end_copy();
            self.stage = TaskStage::Sent;
            return self.exchange.write_end(&mut self.output);
        }
        let count = adapter.due().len().min(CHUNK);
        if count == 0 {
            return Ok(());
        }
        self.exchange.begin_chunk(count, &mut self.output)?;
        self.chunk = count;
        Ok(())
    }

    /// Returns whether the next bytes have to come from the server.
    pub fn waits_for_octets(&self) -> bool {
        self.stage == TaskStage::Sending && self.output.is_empty() && self.chunk == 0
    }

    /// Takes bytes of the printer. The only error is out of memory.
    pub fn handle_bytes(&mut self, bytes: &[u8]) -> Result<(), AllocError> {
        self.exchange.handle_bytes(bytes)
    }

    /// Records that the printer has closed the connection.
    pub fn handle_end(&mut self) {
        self.exchange.handle_end();
    }

    /// Returns whether the task's reply is whole or faulty.
    pub fn has_reply(&self) -> bool {
        self.exchange.is_done()
    }

    /// Removes and returns the parts of the job that aren't passed to the printer, if they weren't reported
    /// yet.
    pub fn take_left_out(&mut self) -> TaskOutcome {
        match self.left_out.take() {
            Some(left_out) => TaskOutcome::LeftOut(left_out),
            None => TaskOutcome::Nothing,
        }
    }

    /// Removes and returns the loaded media, if the printer reported them anew.
    pub fn take_media(&mut self) -> Option<Vec<Text>> {
        self.media.take()
    }

    /// Forgets whether the printer prints. Its state is asked at once.
    pub fn doubt(&mut self) {
        self.prints = None;
        self.ask_at = 0;
    }

    /// Forgets whether the printer prints. Its state is asked after `pause` ms.
    pub fn rest(&mut self, pause: u64, now: u64) {
        self.prints = None;
        self.tries = Pauses::new(pause, LONGEST_PAUSE);
        self.tries.tried(now);
        self.ask_at = self.tries.at;
    }

    /// Ends the task, and returns its result. The only error is out of memory.
    pub fn conclude(&mut self, now: u64) -> Result<TaskOutcome, AllocError> {
        let task = self.task;
        let outcome = match task {
            Task::Nothing => TaskOutcome::Nothing,
            Task::Ask => self.end_asking(now)?,
            Task::Print => self.end_printing(now),
            Task::Follow(job) => self.end_following(job, now),
            Task::Cancel(_) => {
                self.cancels = None;
                TaskOutcome::Nothing
            }
        };
        self.end_task();
        Ok(outcome)
    }

    /// Clears the task.
    fn end_task(&mut self) {
        self.task = Task::Nothing;
        self.output.clear();
        self.chunk = 0;
    }

    /// Ends the task that asks for the printer's state.
    fn end_asking(&mut self, now: u64) -> Result<TaskOutcome, AllocError> {
        match message_of(&self.exchange) {
            Ok(reply) => {
                let stopped = is_stopped(&reply);
                let media = loaded_media(self.alloc, &reply)?;
                self.ask_at = now.saturating_add(BETWEEN_STATES);
                self.answered = self.stage == TaskStage::Waits;
                self.keep_state(stopped, media)
            }
            Err(breach) => {
                let is_reported = self.miss_state(now);
                Ok(if is_reported {
                    TaskOutcome::Unread(breach)
                } else {
                    TaskOutcome::Nothing
                })
            }
        }
    }

    /// Stores the printer's state. The only error is out of memory.
    fn keep_state(
        &mut self,
        stopped: bool,
        media: Option<Vec<Text>>,
    ) -> Result<TaskOutcome, AllocError> {
        self.state = Some(Vec::from_slice(self.alloc, self.exchange.body())?);
        self.media = media;
        self.unread = false;
        self.tries = Pauses::new(FIRST_PAUSE, LONGEST_PAUSE);
        let before = std::mem::replace(&mut self.prints, Some(!stopped));
        Ok(match (stopped, before) {
            (true, Some(false)) | (false, Some(true)) => TaskOutcome::Nothing,
            (true, _) => TaskOutcome::Stops,
            (false, Some(false)) => TaskOutcome::Runs,
            (false, None) => TaskOutcome::Back,
        })
    }

    /// Records that the state couldn't be read: it is asked again after a pause. Returns whether that is to be
    /// reported.
    fn miss_state(&mut self, now: u64) -> bool {
        self.tries.tried(now);
        self.ask_at = self.tries.at.max(self.next_try(now));
        self.prints = None;
        !std::mem::replace(&mut self.unread, true)
    }

    /// Ends the task that sends the job. If the printer didn't take the job, its state is asked at once. If it
    /// is busy, the job is sent again after a pause.
    fn end_printing(&mut self, now: u64) -> TaskOutcome {
        let all_sent = self.stage == TaskStage::Sent;
        self.stage = TaskStage::None;
        match job_answer(&self.exchange) {
            Ok(_) if !all_sent => self.fail(ReplyBreach::TooEarly, now),
            Ok(answer) => match answer.job {
                Some(job) if job > 0 => self.take_job_answer(job, answer, now),
                _ => self.fail(ReplyBreach::NotIpp, now),
            },
            Err(breach) if breach.is_busy() => {
                self.stage = TaskStage::Waits;
                self.restarts = true;
                self.retries.tried(now);
                self.retries.at = self.retries.at.max(self.next_try(now));
                self.busy = Some(breach);
                TaskOutcome::Nothing
            }
            Err(breach) => self.fail(breach, now),
        }
    }

    /// Ends the task that asks about the job. If there is no answer about the job, or the printer is busy, it
    /// is asked again. A job that the printer took and doesn't know any more is printed: some printers forget
    /// a job at its end.
    fn end_following(&mut self, job: i32, now: u64) -> TaskOutcome {
        match job_answer(&self.exchange) {
            Ok(answer) if answer.job.unwrap_or(job) == job => self.take_job_answer(
                job, answer, now,
            ),
            Ok(_) => self.follow_later(None, now),
            Err(breach) if breach.is_no_reply() => self.follow_later(None, now),
            Err(breach) if breach.is_busy() => self.follow_later(Some(breach), now),
            Err(breach) if breach.is_not_found() => {
                self.stage = TaskStage::None;
                TaskOutcome::Printed(None)
            }
            Err(breach) => {
                self.stage = TaskStage::None;
                self.fail(breach, now)
            }
        }
    }

    /// The moment before which the printer doesn't want to be asked again.
    fn next_try(&self, now: u64) -> u64 {
        now.saturating_add(self.exchange.retry_after())
    }

    /// Has the printer asked about the job again.
    fn follow_later(&mut self, busy: Option<ReplyBreach>, now: u64) -> TaskOutcome {
        self.looks.tried(now);
        self.looks.at = self.looks.at.max(self.next_try(now));
        self.busy = busy;
        TaskOutcome::Nothing
    }

    /// Acts on the printer's answer about the job.
    fn take_job_answer(&mut self, job: i32, answer: JobAnswer, now: u64) -> TaskOutcome {
        self.stage = TaskStage::None;
        self.answered = true;
        self.busy = None;
        match answer.state {
            PrinterJobState::Goes => {
                self.stage = TaskStage::Printing(job);
                self.looks.tried(now);
            }
            PrinterJobState::GivenUp => self.ask_at = now,
            PrinterJobState::Completed => {}
        }
        let outcome = answer.outcome(self.impressions);
        self.impressions = self.impressions.max(answer.impressions.unwrap_or(0));
        outcome
    }

    /// Records that the job has failed. The printer's state is asked at once.
    fn fail(&mut self, breach: ReplyBreach, now: u64) -> TaskOutcome {
        self.ask_at = now;
        TaskOutcome::Failed(breach)
    }

    /// Ends the task, since the connection broke. A job that the printer has is asked about again.
    pub fn break_off(&mut self, now: u64) -> PrinterEvent {
        let task = self.task;
        self.end_task();
        match task {
            Task::Nothing => PrinterEvent::Nothing,
            Task::Ask if self.miss_state(now) => PrinterEvent::Away,
            Task::Ask => PrinterEvent::Nothing,
            Task::Print => {
                self.stage = TaskStage::None;
                self.ask_at = now;
                PrinterEvent::Failed(Breach::Broken)
            }
            Task::Follow(_) => {
                self.looks.tried(now);
                PrinterEvent::Nothing
            }
            Task::Cancel(_) => {
                self.cancels = None;
                PrinterEvent::Nothing
            }
        }
    }

    /// Ends the task, since the printer didn't answer for too long. A job in hand is given up.
    pub fn miss(&mut self, now: u64) -> PrinterEvent {
        let task = self.task;
        self.end_task();
        if matches!(task, Task::Cancel(_)) {
            self.cancels = None;
        }
        let is_reported = task == Task::Ask && self.miss_state(now);
        if self.stage != TaskStage::None {
            return PrinterEvent::Failed(self.give_up());
        }
        if is_reported {
            PrinterEvent::Away
        } else {
            PrinterEvent::Nothing
        }
    }

    /// Returns whether the printer has a job that isn't printed yet.
    pub fn has_job(&self) -> bool {
        matches!(self.stage, TaskStage::Printing(_))
    }

    /// Returns whether the job is being sent, or is sent and not answered yet.
    pub fn is_sending(&self) -> bool {
        matches!(self.stage, TaskStage::Sending | TaskStage::Sent)
    }

    /// Returns whether there is a task.
    pub fn is_busy(&self) -> bool {
        self.task != Task::Nothing
    }

    /// Returns the ms until there is work to do without an event.
    pub fn pause(&self, now: u64) -> u64 {
        let ask = self.ask_at.saturating_sub(now);
        match self.stage {
            TaskStage::Printing(_) => ask.min(self.looks.left(now)),
            TaskStage::Waits if !self.retries.is_due(now) => ask.min(self.retries.left(now)),
            _ => ask,
        }
    }
}

/// The bytes of a request. Each request that is made here has a spelling.
fn encoded(body: Result<Vec<u8>, EncodeFault>) -> Result<Vec<u8>, AllocError> {
    match body {
        Ok(bytes) => Ok(bytes),
        Err(_) => Err(AllocError),
    }
}

/// Returns whether enough of the job is there to determine the document's format.
fn has_prefix(adapter: &AdapterState) -> bool {
    adapter.room() == Some(0) || adapter.due().len() >= PREFIX
}
