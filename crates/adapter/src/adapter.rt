//! The turns of an adapter.
use crate::figures::AdapterFigures;
use crate::line::{ServerInput, ServerLine};
use crate::log::{Log, LogEntry};
use crate::overdue::OverdueJob;
use adapter_core::{
    AdapterState, JobOrder, LoadedMedia, Order, OrderError, OrderItem, PrinterState,
};
use adapter_printers::{
    Breach, Connector, HostPort, Network, Peer, Printer, PrinterEvent, Reached, Readiness, Stream,
};
use base_types::{JobId, Report, Text};
use std::alloc::{AllocError, Global};
use std::rt::Files;

/// The most segments of the server's stream that a turn reads, and the most items of one segment.
const SEGMENTS: u32 = 64;

const ITEMS: u32 = 131_072;

/// The longest pause of an adapter, in ms.
const LONGEST_PAUSE: u64 = 60_000;

/// The pause after a job that the printer failed, in ms.
const FAILURE_PAUSE: u64 = 1_000;

/// The number of failed jobs in a row after which the printer rests, and for how many ms.
const FAILURES: u32 = 3;

const REST: u64 = 300_000;

/// The time after which a connection that the server keeps counts as accepted, in ms.
const ACCEPTED: u64 = 5_000;

/// A device: its name, its server, and what its adapter writes.
#[derive(Drop)]
pub struct Device {
    pub name: String,
    /// The address of the server's port for devices.
    pub server: HostPort,
    /// Whether a log is written.
    pub logs: bool,
    /// Whether the printer's rates and its setup are measured and written.
    pub measures: bool,
}

/// An adapter, with its state between the server and the printer.
#[derive(Drop)]
pub struct Adapter<S: Stream, P: Printer<S>> {
    alloc: Global,
    name: String,
    state: AdapterState,
    media: LoadedMedia,
    line: ServerLine<S>,
    printer: P,
    log: Log,
    figures: AdapterFigures,
    worked: bool,
    overdue: OverdueJob,
    /// The number of jobs that the printer failed since it last printed one.
    failures: u32,
    /// Whether the printer was tried.
    tried: bool,
    /// Whether the log has it that the printer doesn't print.
    troubled: bool,
    /// The moment at which the connection to the server was made, and whether the server sent a byte on it.
    linked: u64,
    received: bool,
    /// Whether the log has it that the server turned the adapter away.
    turned_away: bool,
}

/// Why a turn is stopped.
#[derive(Clone, Copy)]
enum Stop {
    /// The connection to the server ended, or the server sent a line or job that breaks the protocol.
    Lost,
    OutOfMemory,
}

impl From<AllocError> for Stop {
    fn from(_: AllocError) -> Stop {
        Stop::OutOfMemory
    }
}

impl<S: Stream, P: Printer<S>> Adapter<S, P> {
    /// Creates the adapter of a device and its printer, which is stopped until it was tried. The only error is
    /// out of memory.
    pub fn new(alloc: Global, device: Device, printer: P) -> Result<Adapter<S, P>, AllocError> {
        let log = Log::new(alloc, device.name.clone()?, device.logs);
        let mut state = AdapterState::new(alloc);
        state.set_printer(PrinterState::Stopped);
        Ok(Adapter {
            alloc,
            name: device.name,
            state,
            media: LoadedMedia::new(alloc),
            line: ServerLine::new(alloc, Connector::new(alloc, device.server, Peer::Server))?,
            printer,
            log,
            figures: AdapterFigures::new(alloc, device.measures),
            worked: false,
            overdue: OverdueJob::none(),
            failures: 0,
            tried: false,
            troubled: false,
            linked: 0,
            received: false,
            turned_away: false,
        })
    }

    /// Takes the result of a wait.
    pub fn notified(&mut self, readiness: Readiness) {
        self.line.notified(readiness);
        self.printer.notified(readiness);
    }

    /// Removes and returns the lines of the log since the last call.
    pub fn take_log(&mut self) -> Vec<u8> {
        self.log.take()
    }

    /// Removes and returns the measurements since the last call.
    pub fn take_figures(&mut self) -> Vec<u8> {
        self.figures.take()
    }

    /// Takes a turn: connects, reads from the server, goes on with the printer, and sends the reports that
    /// are due.
    pub fn turn<F: Files, N: Network<Stream = S>>(&mut self, files: &F, network: &N, now: u64) {
        self.log.set_now(now);
        self.figures.set_now(now);
        self.worked = false;
        let stop = self.take_turn(files, network, now);
        if let Err(stop) = stop {
            self.handle_stop(files, stop, now);
        }
    }

    /// Takes the parts of a turn, up to one that stops it.
    fn take_turn<F: Files, N: Network<Stream = S>>(
        &mut self,
        files: &F,
        network: &N,
        now: u64,
    ) -> Result<(), Stop> {
        self.call_server(network, now)?;
        self.read_server(files, now)?;
        self.turn_printer(files, network, now)?;
        self.report_state()?;
        self.report_overdue(now)?;
        self.flush()
    }

    /// Acts on the reason why a turn was stopped.
    fn handle_stop<F: Files>(&mut self, files: &F, stop: Stop, now: u64) {
        match stop {
            Stop::Lost => self.unlink(files, Breach::Unlinked, now),
            Stop::OutOfMemory => self.unlink(files, Breach::OutOfMemory, now),
        }
    }

    /// Returns the ms until the adapter has work to do without an event.
    pub fn pause(&self, now: u64) -> u64 {
        if self.worked || self.printer.has_worked() {
            return 0;
        }
        let line = self.line.pause(now).unwrap_or(LONGEST_PAUSE);
        let has_job = self.state.job().is_some();
        let printer = self.printer.pause(now, has_job).unwrap_or(LONGEST_PAUSE);
        let overdue = self.overdue.left(now).unwrap_or(LONGEST_PAUSE);
        line.min(printer).min(overdue).min(LONGEST_PAUSE)
    }

    /// Connects to the server, and sends the device's name.
    fn call_server<N: Network<Stream = S>>(&mut self, network: &N, now: u64) -> Result<(), Stop> {
        match self.line.turn(network, now) {
            Reached::Not | Reached::Still => {}
            Reached::Away => self.log.note(LogEntry::ServerAway),
            Reached::Now => {
                self.linked = now;
                self.received = false;
                self.state.link();
                self.media.link();
                let name = Text::copy_of(self.alloc, self.name.as_bytes())?;
                self.line.say(&Report::Hello(name))?;
                self.log.note(LogEntry::Linked);
            }
        }
        Ok(())
    }

    /// Reads all bytes of the server that are there.
    fn read_server<F: Files>(&mut self, files: &F, now: u64) -> Result<(), Stop> {
        self.turned_away &= !self.is_accepted(now);
        for _ in 0..SEGMENTS {
            match self.line.read()? {
                ServerInput::Nothing => return Ok(()),
                ServerInput::End => return Err(Stop::Lost),
                ServerInput::Bytes => self.handle_segment(files, now)?,
            }
        }
        Ok(())
    }

    /// Acts on the items of a segment.
    fn handle_segment<F: Files>(&mut self, files: &F, now: u64) -> Result<(), Stop> {
        self.worked = true;
        self.received = true;
        for _ in 0..ITEMS {
            match self.line.next_item() {
                Ok(None) => return Ok(()),
                Ok(Some(item)) => self.handle_item(files, item, now)?,
                Err(OrderError::OutOfMemory) => return Err(Stop::OutOfMemory),
                Err(OrderError::Fault(fault)) => {
                    self.log.note(LogEntry::Refused(fault));
                    return Err(Stop::Lost);
                }
            }
        }
        Ok(())
    }

    /// Acts on an item of the server's stream.
    fn handle_item<F: Files>(&mut self, files: &F, item: OrderItem, now: u64) -> Result<(), Stop> {
        match item {
            OrderItem::Octets => self.take_octets(files, now),
            OrderItem::Order(order) => self.obey(files, &order, now),
        }
    }

    /// Acts on an order of the server.
    fn obey<F: Files>(&mut self, files: &F, order: &Order, now: u64) -> Result<(), Stop> {
        match order {
            Order::Job(order) => self.begin(order, now),
            Order::Cancel(job) => self.cancel(files, *job, now),
        }
    }

    /// Begins a job.
    fn begin(&mut self, order: &JobOrder, now: u64) -> Result<(), Stop> {
        let job = order.job.number();
        if self.state.job().is_some() {
            self.log.note(LogEntry::JobTooEarly(job));
            return Err(Stop::Lost);
        }
        let times = self.printer.times(order);
        self.state.order(order.job, order.octets, times);
        self.printer.begin(order);
        self.figures.begin(order);
        self.overdue = OverdueJob::begun(self.figures.expected(), now);
        self.log.note(LogEntry::Began {
            job,
            octets: order.octets,
            copies: order.copies,
        });
        Ok(())
    }

    /// Takes octets of the job, if it is still in hand.
    fn take_octets<F: Files>(&mut self, files: &F, now: u64) -> Result<(), Stop> {
        let part = self.line.part();
        let Some(room) = self.state.room() else {
            return Ok(());
        };
        if part.len() > room {
            return Ok(());
        }
        match self.state.take(part) {
            Ok(()) => Ok(()),
            Err(AllocError) => self.fail(files, Breach::OutOfMemory, now),
        }
    }

    /// Gives up the job that the server cancels, if it is in hand.
    fn cancel<F: Files>(&mut self, files: &F, job: JobId, now: u64) -> Result<(), Stop> {
        self.state.cancel(job);
        if self.state.job() == Some(job) {
            self.fail(files, Breach::Canceled, now)?;
        }
        Ok(())
    }

    /// Goes on with the printer.
    fn turn_printer<F: Files, N: Network<Stream = S>>(
        &mut self,
        files: &F,
        network: &N,
        now: u64,
    ) -> Result<(), Stop> {
        match self.printer.turn(files, network, &mut self.state, now) {
            PrinterEvent::Nothing => Ok(()),
            PrinterEvent::Away => self.stop(LogEntry::PrinterAway),
            PrinterEvent::Stops => self.stop(LogEntry::PrinterStopped),
            PrinterEvent::Back => Ok(self.run(LogEntry::PrinterBack)),
            PrinterEvent::Runs => Ok(self.run(LogEntry::PrinterRuns)),
            PrinterEvent::LeftOut(left_out) => Ok(self.log.note(LogEntry::LeftOut(left_out))),
            PrinterEvent::Unread(breach) => self.stop(LogEntry::Unread(breach)),
            PrinterEvent::Pages(printed) => self.report_pages(printed),
            PrinterEvent::Printed(printed) => self.finish(files, printed, now),
            PrinterEvent::Failed(breach) => self.fail(files, breach, now),
        }
    }

    /// Records that the printer prints nothing for now.
    fn stop(&mut self, note: LogEntry) -> Result<(), Stop> {
        self.figures.leave();
        self.state.set_printer(PrinterState::Stopped);
        self.tried = true;
        self.troubled = true;
        self.log.note(note);
        self.end_overdue()
    }

    /// Records that the printer prints. The log has that only if it has trouble before.
    fn run(&mut self, note: LogEntry) {
        self.figures.leave();
        self.state.set_printer(PrinterState::Running);
        self.tried = true;
        if std::mem::replace(&mut self.troubled, false) {
            self.log.note(note);
        }
    }

    /// Stops the printer, which failed a job, until it was tried again: after a second, and after a longer
    /// pause if it failed several jobs in a row. The server is notified of that before the failure, so that it begins
    /// no other job there.
    fn distrust(&mut self, breach: Breach, now: u64) -> Result<(), Stop> {
        self.failures = self.failures.saturating_add(1);
        self.state.set_printer(PrinterState::Stopped);
        self.tried = true;
        self.troubled = true;
        if let Some(report) = self.state.next_report() {
            self.line.say(&report)?;
        }
        if self.failures < FAILURES {
            self.printer.doubt(FAILURE_PAUSE, now);
        } else {
            self.printer.doubt(REST, now);
            self.log.note(LogEntry::Rests(self.failures, breach));
        }
        Ok(())
    }

    /// Reports that the printer has printed this many pages of the job.
    fn report_pages(&mut self, printed: u32) -> Result<(), Stop> {
        self.figures.pages(printed);
        if let Some(report) = self.state.pages(printed) {
            self.line.say(&report)?;
        }
        Ok(())
    }

    /// Reports that the printer has printed the job. If the number of its pages comes only now, that is
    /// reported first. A job that wasn't sent to its end has failed.
    fn finish<F: Files>(&mut self, files: &F, printed: Option<u32>, now: u64) -> Result<(), Stop> {
        if !self.state.is_sent() {
            return self.fail(files, Breach::Broken, now);
        }
        if let Some(printed) = printed {
            self.report_pages(printed)?;
        }
        let report = self.state.finish();
        self.printer.drop_job(files);
        self.answer(report)
    }

    /// Reports that the job can't be printed.
    fn fail<F: Files>(&mut self, files: &F, breach: Breach, now: u64) -> Result<(), Stop> {
        self.printer.drop_job(files);
        if let Some(job) = self.state.job() {
            self.log.note(LogEntry::Failed(job.number(), breach));
        }
        if breach.is_the_printers() {
            self.distrust(breach, now)?;
        }
        let report = self.state.fail();
        self.answer(report)
    }

    /// Sends the report that ends a job.
    fn answer(&mut self, report: Option<Report>) -> Result<(), Stop> {
        self.worked = true;
        let Some(report) = report else {
            return Ok(());
        };
        self.end_overdue()?;
        match &report {
            Report::Done { job } => {
                self.failures = 0;
                self.figures.finish();
                self.log.note(LogEntry::Done(*job));
            }
            _ => self.figures.leave(),
        }
        Ok(self.line.say(&report)?)
    }

    /// Reports the printer's media and state, if the server doesn't know them.
    fn report_state(&mut self) -> Result<(), Stop> {
        if let Some(names) = self.printer.take_media() {
            self.media.load(names);
        }
        if !self.line.is_linked() {
            return Ok(());
        }
        if let Some(report) = self.media.next_report()? {
            self.line.say(&report)?;
        }
        if !self.tried {
            return Ok(());
        }
        if let Some(report) = self.state.next_report() {
            self.line.say(&report)?;
        }
        Ok(())
    }

    /// Reports that the device is busy, if its job is overdue by the jobs before it.
    fn report_overdue(&mut self, now: u64) -> Result<(), Stop> {
        if let Some(late) = self.overdue.take_late(now) {
            self.line.say(&Report::Busy(late))?;
        }
        Ok(())
    }

    /// Reports that the device isn't busy any more, if the server takes it as busy.
    fn end_overdue(&mut self) -> Result<(), Stop> {
        if self.overdue.end() {
            self.line.say(&Report::Busy(0))?;
        }
        Ok(())
    }

    /// Writes the bytes that are due to the server.
    fn flush(&mut self) -> Result<(), Stop> {
        match self.line.flush() {
            Ok(moved) => {
                self.worked |= moved;
                Ok(())
            }
            Err(_) => Err(Stop::Lost),
        }
    }

    /// Gives up the job in hand, since the adapter ends.
    pub fn give_up<F: Files>(&mut self, files: &F, now: u64) {
        self.log.set_now(now);
        self.figures.leave();
        let report = self.state.fail();
        self.printer.drop_job(files);
        if let Some(report) = report {
            self.report_given_up(&report);
        }
        self.log.note(LogEntry::Ended);
    }

    /// Reports that a job is given up. If memory for that is refused, the server aborts the job.
    fn report_given_up(&mut self, report: &Report) {
        if let Report::Fail { job } = report {
            self.log.note(LogEntry::GivenUp(*job));
        }
        let _printed = self.line.say(report);
    }

    /// Writes the bytes that are still due to the server, and drops the bytes that come. Returns whether the
    /// connection is still open.
    pub fn take_leave(&mut self) -> bool {
        self.line.take_leave()
    }

    /// Drops the connection to the server, which is of no more use. The server aborts the job.
    fn unlink<F: Files>(&mut self, files: &F, breach: Breach, now: u64) {
        if let Some(job) = self.state.job() {
            self.log.note(LogEntry::Failed(job.number(), breach));
        }
        self.line.lose(now);
        self.figures.leave();
        self.overdue = OverdueJob::none();
        self.printer.drop_job(files);
        self.state.link();
        self.log.note(LogEntry::Unlinked);
        self.note_turned_away(now);
    }

    /// Returns whether the server has accepted the device's name: it sent a byte on the connection, or keeps
    /// it for a while.
    fn is_accepted(&mut self, now: u64) -> bool {
        let kept = now.saturating_sub(self.linked) >= ACCEPTED;
        self.received || (kept && self.line.is_linked())
    }

    /// Notes once that the server closes connections before it accepts the device's name.
    fn note_turned_away(&mut self, now: u64) {
        let kept = now.saturating_sub(self.linked) >= ACCEPTED;
        if !self.received && !kept && !std::mem::replace(&mut self.turned_away, true) {
            self.log.note(LogEntry::TurnedAway);
        }
    }
}
