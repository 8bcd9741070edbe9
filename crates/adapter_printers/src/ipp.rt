//! IPP: the connections for a printer's tasks.
use crate::format::{Format, MediaType};
use crate::ipp_printer::IppPrinter;
use crate::printer_event::{Breach, PrinterEvent};
use crate::printer_link::{CALLS, IoOutcome, PrinterLink, SEGMENT};
use crate::protocol::Protocol;
use crate::stream::Stream;
use crate::task_outcome::TaskOutcome;
use adapter_core::{AdapterState, JobOrder};
use base_types::Text;
use std::alloc::AllocError;

/// The client's side of IPP: each task has a connection of its own.
#[derive(Drop)]
pub struct Ipp {
    printer: IppPrinter,
    format: Option<MediaType>,
    /// The moment of the last reply that showed that the job goes on, or at which no reply was due.
    answered: u64,
    /// Whether the printer is to answer for the job now.
    owes: bool,
    /// The moment at which the printer first refused the job because it was busy.
    busy_since: Option<u64>,
    /// Whether a task has ended in the last turn, and another may begin.
    ended: bool,
}

impl Ipp {
    /// Creates the protocol. The printer gets documents of this format, if it is given.
    pub fn new(printer: IppPrinter, format: Option<MediaType>) -> Ipp {
        Ipp {
            printer,
            format,
            answered: 0,
            owes: false,
            busy_since: None,
            ended: false,
        }
    }

    /// Reads all bytes of the printer that are there, up to the end of its reply.
    fn listen<S: Stream>(&mut self, session: &mut PrinterLink<S>) -> Result<IoOutcome, AllocError> {
        let mut buffer = [0u8; SEGMENT];
        for _ in 0..CALLS {
            match session.read(&mut buffer) {
                IoOutcome::Bytes(count) => self.printer.handle_bytes(&buffer[..count])?,
                moved => return Ok(moved),
            }
            if self.printer.has_reply() {
                return Ok(IoOutcome::Nothing);
            }
        }
        Ok(IoOutcome::Nothing)
    }

    /// Sends the bytes that are due: the request, and the job in chunks.
    fn send_all<S: Stream>(
        &mut self,
        session: &mut PrinterLink<S>,
        adapter: &mut AdapterState,
        now: u64,
    ) -> Result<IoOutcome, AllocError> {
        for _ in 0..CALLS {
            self.printer.go_on(adapter)?;
            match self.send(session, adapter, now)? {
                IoOutcome::Bytes(_) => {}
                moved => return Ok(moved),
            }
        }
        Ok(IoOutcome::Nothing)
    }

    /// Sends some of the bytes that are due.
    fn send<S: Stream>(
        &mut self,
        session: &mut PrinterLink<S>,
        adapter: &mut AdapterState,
        now: u64,
    ) -> Result<IoOutcome, AllocError> {
        if self.printer.waits_for_octets() {
            self.answered = now;
            return Ok(IoOutcome::Nothing);
        }
        let octets = self.printer.octets();
        let moved = if self.printer.text().is_empty() {
            session.send_some(adapter, octets, now)
        } else {
            session.write(self.printer.text(), now)
        };
        if let IoOutcome::Bytes(count) = moved {
            self.printer.pass(count)?;
            self.note_sent(now);
        }
        Ok(moved)
    }

    /// Records that the printer took bytes. While it is to answer for the job, only the job's are progress.
    fn note_sent(&mut self, now: u64) {
        if !self.owes || self.printer.is_sending() {
            self.answered = now;
        }
    }

    /// Ends the task: the reply is whole, or isn't valid.
    fn conclude<S: Stream>(
        &mut self,
        session: &mut PrinterLink<S>,
        adapter: &mut AdapterState,
        now: u64,
    ) -> Result<PrinterEvent, AllocError> {
        session.close();
        self.ended = true;
        let outcome = self.printer.conclude(now)?;
        if self.printer.take_answered() {
            self.answered = now;
        }
        if self.printer.take_restart() {
            return Ok(self.restart(session, adapter, now));
        }
        Ok(event_of(outcome))
    }

    /// Has the job sent again from its start, unless the printer has been busy for too long.
    fn restart<S: Stream>(
        &mut self,
        session: &PrinterLink<S>,
        adapter: &mut AdapterState,
        now: u64,
    ) -> PrinterEvent {
        adapter.restart();
        let since = self.busy_since.unwrap_or(now);
        self.busy_since = Some(since);
        if now.saturating_sub(since) < session.timeout() {
            return PrinterEvent::Nothing;
        }
        PrinterEvent::Failed(self.printer.give_up())
    }

    /// Ends the task: the connection broke.
    fn break_off<S: Stream>(&mut self, session: &mut PrinterLink<S>, now: u64) -> PrinterEvent {
        session.close();
        self.ended = true;
        self.printer.break_off(now)
    }

    /// Ends the task: the printer didn't answer for too long.
    fn miss<S: Stream>(&mut self, session: &mut PrinterLink<S>, now: u64) -> PrinterEvent {
        session.close();
        self.ended = true;
        self.answered = now;
        self.printer.miss(now)
    }

    /// Returns whether the printer hasn't answered for too long.
    fn is_overdue<S: Stream>(&self, session: &PrinterLink<S>, now: u64) -> bool {
        now.saturating_sub(self.answered) >= session.timeout()
    }
}

impl Protocol for Ipp {
    fn begin(&mut self, order: &JobOrder) {
        self.busy_since = None;
        self.printer.begin(order);
    }

    /// Returns whether there is a task. The time of an answer for a job begins once it is owed.
    fn wants_connection(&mut self, adapter: &AdapterState, now: u64) -> bool {
        self.ended = false;
        let owes = self.printer.owes_answer(adapter);
        if owes && !self.owes {
            self.answered = now;
        }
        self.owes = owes;
        self.printer.wants_connection(adapter, now)
    }

    /// A job fails if the printer doesn't answer for it for too long. A job that isn't sent yet waits for a
    /// printer that can't be reached.
    fn wait<S: Stream>(
        &mut self,
        session: &PrinterLink<S>,
        event: PrinterEvent,
        now: u64,
    ) -> PrinterEvent {
        let is_sent = self.printer.has_job();
        if !self.owes || (session.is_doubted() && !is_sent) {
            self.answered = now;
        }
        if self.is_overdue(session, now) {
            self.answered = now;
            return PrinterEvent::Failed(self.printer.give_up());
        }
        event
    }

    fn open(
        &mut self,
        adapter: &AdapterState,
        event: PrinterEvent,
    ) -> Result<PrinterEvent, AllocError> {
        if matches!(event, PrinterEvent::Back) {
            self.printer.doubt();
        }
        let format = match &self.format {
            Some(format) => format.name.as_str(),
            None => Format::sniffed(adapter.due()).media_type(),
        };
        self.printer.open(format)?;
        Ok(match event {
            PrinterEvent::Back => PrinterEvent::Nothing,
            event => event,
        })
    }

    fn exchange<S: Stream>(
        &mut self,
        session: &mut PrinterLink<S>,
        adapter: &mut AdapterState,
        now: u64,
    ) -> Result<PrinterEvent, AllocError> {
        match self.listen(session)? {
            IoOutcome::End => self.printer.handle_end(),
            IoOutcome::Broken => return Ok(self.break_off(session, now)),
            IoOutcome::Bytes(_) | IoOutcome::Nothing => {}
        }
        if self.printer.has_reply() {
            return self.conclude(session, adapter, now);
        }
        if self.send_all(session, adapter, now)? == IoOutcome::Broken {
            return Ok(self.break_off(session, now));
        }
        if self.is_overdue(session, now) {
            return Ok(self.miss(session, now));
        }
        Ok(event_of(self.printer.take_left_out()))
    }

    fn take_media(&mut self) -> Option<Vec<Text>> {
        self.printer.take_media()
    }

    fn drop_job(&mut self) {
        self.owes = false;
        self.printer.drop_job();
    }

    /// The printer's state is asked again after the pause.
    fn doubt<S: Stream>(&mut self, _session: &mut PrinterLink<S>, pause: u64, now: u64) {
        self.printer.rest(pause, now);
    }

    fn goes_on(&self) -> bool {
        self.ended
    }

    fn pause<S: Stream>(&self, session: &PrinterLink<S>, now: u64, _has_job: bool) -> Option<u64> {
        let is_busy = self.printer.is_busy();
        let next = if is_busy {
            u64::MAX
        } else {
            self.printer.pause(now)
        };
        let left = session
            .timeout()
            .saturating_sub(now.saturating_sub(self.answered));
        let patience = if is_busy || self.owes { left } else { u64::MAX };
        let connection = session.pause(now, is_busy, u64::MAX).unwrap_or(u64::MAX);
        Some(connection.min(next).min(patience))
    }
}

/// The result of an adapter's turn for a result of the printer's task.
fn event_of(outcome: TaskOutcome) -> PrinterEvent {
    match outcome {
        TaskOutcome::Nothing => PrinterEvent::Nothing,
        TaskOutcome::Stops => PrinterEvent::Stops,
        TaskOutcome::Runs => PrinterEvent::Runs,
        TaskOutcome::Back => PrinterEvent::Back,
        TaskOutcome::Pages(count) => PrinterEvent::Pages(count),
        TaskOutcome::LeftOut(left_out) => PrinterEvent::LeftOut(left_out),
        TaskOutcome::Printed(count) => PrinterEvent::Printed(count),
        TaskOutcome::Failed(breach) => PrinterEvent::Failed(Breach::Reply(breach)),
        TaskOutcome::Unread(breach) => PrinterEvent::Unread(breach),
    }
}
