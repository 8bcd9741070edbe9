//! The connection to a printer, while it has a job.
ghost use Rattle.std.specs.Prelude.{ℕ, ◌≡◌, ◌⊎◌, List};
ghost use Rattle.std.specs.Io.{WritesAtMost};
ghost use Rattle.adapter_printers.specs.declared.printer_link.IoOutcome.TheVariants.{End, Nothing};
ghost use Rattle.adapter_printers.specs.IoOutcome.{MovesAtMost};

use crate::backlog::Backlog;
use crate::connector::{Connector, Reached};
use crate::link::has_to_wait;
use crate::printer_event::{Breach, PrinterEvent};
use crate::stream::{Network, Readiness, Stream};
use adapter_core::AdapterState;
use std::io;
use std::rt::Files;
use text::drop_prefix;

/// The most calls to a printer in a turn.
pub(crate) const CALLS: u32 = 64;

/// The number of bytes that one read asks for.
pub(crate) const SEGMENT: usize = 1024;

/// The state of the connection to a printer.
#[derive(Clone, Copy)]
pub(crate) enum LinkStage {
    /// There is no connection now.
    Waits(PrinterEvent),
    /// The connection was just made.
    Opened(PrinterEvent),
    Open,
}

/// The result of a call on a connection.
#[derive(Clone, Copy, PartialEq, Eq)]
pub(crate) enum IoOutcome {
    Nothing,
    /// This many bytes were moved, at least one.
    Bytes(usize),
    /// The other side has ended.
    End,
    Broken,
}

/// The connection to a printer, while it has a job or is in doubt.
#[derive(Drop)]
pub struct PrinterLink<S: Stream> {
    caller: Connector<S>,
    timeout: u64,
    /// Whether the printer has to be reached before the next job: at the start, and after it couldn't be
    /// reached or failed a job.
    doubted: bool,
    /// The moment at which the printer last took bytes or showed that the job goes on, or had to do neither.
    last: u64,
    worked: bool,
    /// The bytes that wait in this machine once the writing side is ended.
    backlog: Backlog,
}

impl<S: Stream> PrinterLink<S> {
    /// Creates a session without a connection. A job may make no progress for `timeout` ms.
    pub fn new(caller: Connector<S>, timeout: u64) -> PrinterLink<S> {
        PrinterLink {
            caller,
            timeout,
            doubted: true,
            last: 0,
            worked: false,
            backlog: Backlog::none(),
        }
    }

    /// Takes the result of a wait.
    pub(crate) fn notified(&mut self, readiness: Readiness) {
        self.caller.notified(readiness);
    }

    /// Connects, if there is a job or the printer is in doubt, and looks at the waiting bytes of a job that is
    /// written.
    pub(crate) fn reach<F: Files, N: Network<Stream = S>>(
        &mut self,
        files: &F,
        network: &N,
        has_job: bool,
        now: u64,
    ) -> LinkStage {
        self.worked = false;
        if !has_job && !self.doubted {
            return LinkStage::Waits(PrinterEvent::Nothing);
        }
        match self.caller.turn(network, now) {
            Reached::Not => LinkStage::Waits(PrinterEvent::Nothing),
            Reached::Away => {
                self.doubted = true;
                LinkStage::Waits(PrinterEvent::Away)
            }
            Reached::Now => self.open(has_job, now),
            Reached::Still => {
                self.look(files, now);
                LinkStage::Open
            }
        }
    }

    /// Looks at the bytes that wait in this machine, if a look is due. The printer's time begins anew with
    /// each byte that its machine takes.
    fn look(&mut self, files: &impl Files, now: u64) {
        if !self.backlog.is_due(now) {
            return;
        }
        let bytes = self.caller.unacknowledged(files);
        if self.backlog.update(bytes, now) {
            self.last = now;
        }
    }

    /// Records that the connection was made. Without a job it only shows that the printer is there.
    fn open(&mut self, has_job: bool, now: u64) -> LinkStage {
        self.last = now;
        self.worked = true;
        self.backlog = Backlog::none();
        if !has_job {
            self.caller.close();
        }
        if !self.doubted {
            return LinkStage::Opened(PrinterEvent::Nothing);
        }
        self.doubted = false;
        LinkStage::Opened(PrinterEvent::Back)
    }

    /// Reads bytes of the printer. They restart the printer's time only by [`PrinterLink::rest`].
    pub(crate) fn read(&mut self, buffer: &mut [u8]) -> IoOutcome
        ensures { MovesAtMost result buffer.new }
    {
        let Some(link) = self.caller.link() else {
            return IoOutcome::Broken;
        };
        let read = link.read(buffer);
        self.record_result(read, IoOutcome::End)
    }

    /// Writes bytes, if there are any.
    pub(crate) fn write(&mut self, bytes: &[u8], now: u64) -> IoOutcome
        ensures { MovesAtMost result bytes.now }
    {
        let Some(link) = self.caller.link() else {
            return IoOutcome::Broken;
        };
        if bytes.is_empty() {
            return IoOutcome::Nothing;
        }
        let written = link.write(bytes);
        let moved = self.record_result(written, IoOutcome::Nothing);
        if let IoOutcome::Bytes(_) = moved {
            self.last = now;
        }
        moved
    }

    /// Records the result of a call. `none` is the result of a call that moved no byte.
    fn record_result(&mut self, call: io::Result<usize>, none: IoOutcome) -> IoOutcome
        requires { none ≡ End ⊎ none ≡ Nothing }
        ensures { (bytes : List ℕ) → WritesAtMost call bytes → MovesAtMost result bytes }
    {
        match call {
            Ok(0) => none,
            Ok(count) => {
                self.worked = true;
                IoOutcome::Bytes(count)
            }
            Err(error) if has_to_wait(&error) => IoOutcome::Nothing,
            Err(_) => IoOutcome::Broken,
        }
    }

    /// Writes a prefix of a text, and removes the bytes that went.
    pub(crate) fn write_prefix(&mut self, text: &mut Vec<u8>, now: u64) -> IoOutcome {
        let moved = self.write(text, now);
        if let IoOutcome::Bytes(count) = moved {
            drop_prefix(text, count);
        }
        moved
    }

    /// Sends some octets of a job that are due. If none are due, the printer's time isn't counted.
    pub(crate) fn send_due(&mut self, adapter: &mut AdapterState, now: u64) -> IoOutcome {
        if adapter.due().is_empty() {
            self.rest(now);
            return IoOutcome::Nothing;
        }
        self.send_some(adapter, usize::MAX, now)
    }

    /// Sends some octets of a job that are due, at most `most`.
    pub(crate) fn send_some(
        &mut self,
        adapter: &mut AdapterState,
        most: usize,
        now: u64,
    ) -> IoOutcome {
        let due = adapter.due();
        let moved = self.write(&due[..due.len().min(most)], now);
        if let IoOutcome::Bytes(count) = moved {
            adapter.send(count);
        }
        moved
    }

    /// Ends the writing side. The waiting bytes are looked at from then on.
    pub(crate) fn end_writing(&mut self, now: u64) -> IoOutcome {
        self.last = now;
        self.worked = true;
        self.backlog = Backlog::unknown(now);
        match self.caller.link() {
            Some(link) if link.end_writing().is_ok() => IoOutcome::Nothing,
            _ => IoOutcome::Broken,
        }
    }

    /// Returns whether bytes of a written job wait in this machine.
    pub(crate) fn has_backlog(&self) -> bool {
        self.backlog.waits()
    }

    /// Records that the printer has closed its side after all was written. The job is printed once no bytes
    /// of it wait.
    pub(crate) fn record_end(&mut self, now: u64) -> PrinterEvent {
        if !self.has_backlog() {
            return PrinterEvent::Printed(None);
        }
        match self.caller.has_ended() {
            Ok(true) => PrinterEvent::Printed(None),
            Ok(false) => self.wait(now),
            Err(_) => PrinterEvent::Failed(Breach::Broken),
        }
    }

    /// Restarts the printer's time: it showed that the job goes on, or has nothing to do for now.
    pub(crate) fn rest(&mut self, now: u64) {
        self.last = now;
    }

    /// The time for which the printer has been silent, in ms.
    pub(crate) fn silence(&self, now: u64) -> u64 {
        now.saturating_sub(self.last)
    }

    /// Returns whether the printer has been silent for too long.
    pub(crate) fn wait(&self, now: u64) -> PrinterEvent {
        if self.silence(now) >= self.timeout {
            PrinterEvent::Failed(Breach::Silent)
        } else {
            PrinterEvent::Nothing
        }
    }

    /// Closes the connection, if there is one.
    pub(crate) fn close(&mut self) {
        if !self.doubted {
            self.caller.close();
        }
    }

    /// Closes the connection, and has the printer reached after `pause` ms, before the next job.
    pub(crate) fn doubt(&mut self, pause: u64, now: u64) {
        self.doubted = true;
        self.caller.rest(pause, now);
    }

    /// Returns whether the printer has to be reached before the next job.
    pub(crate) fn is_doubted(&self) -> bool {
        self.doubted
    }

    /// Returns whether the last turn moved bytes.
    pub(crate) fn has_worked(&self) -> bool {
        self.worked
    }

    /// Returns the ms until there is work to do without an event, where the printer may be silent for
    /// `patience` ms.
    pub(crate) fn pause(&self, now: u64, has_job: bool, patience: u64) -> Option<u64> {
        if !has_job && !self.doubted {
            return None;
        }
        match self.caller.pause(now) {
            Some(pause) => Some(pause),
            None => {
                let left = patience.saturating_sub(self.silence(now));
                Some(self.backlog.pause(now).unwrap_or(left).min(left))
            }
        }
    }

    /// The time for which the printer may be silent, in ms.
    pub(crate) fn timeout(&self) -> u64 {
        self.timeout
    }
}
