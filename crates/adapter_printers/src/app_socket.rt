//! AppSocket: one connection for each job. The job's octets are sent, and the printer's bytes are read until
//! it closes the connection.
use crate::printer_event::{Breach, PrinterEvent};
use crate::printer_link::{CALLS, IoOutcome, PrinterLink, SEGMENT};
use crate::protocol::Protocol;
use crate::stream::Stream;
use adapter_core::{AdapterState, JobOrder};
use std::alloc::AllocError;

/// The client's side of AppSocket.
#[derive(Drop)]
pub struct AppSocket {
    linger: u64,
    /// Whether all is sent, and nothing more will be written.
    ends: bool,
    /// The moment at which the printer last sent something.
    received: u64,
}

impl AppSocket {
    /// Creates the protocol. Once a printer's machine has taken all bytes, the printer may be silent for
    /// `linger` ms before the job counts as printed.
    pub fn new(linger: u64) -> AppSocket {
        AppSocket {
            linger,
            ends: false,
            received: 0,
        }
    }

    /// Sends the octets that are due, copy by copy, and ends the writing side after the last.
    fn send_all<S: Stream>(
        &mut self,
        session: &mut PrinterLink<S>,
        adapter: &mut AdapterState,
        now: u64,
    ) -> IoOutcome {
        for _ in 0..CALLS {
            if adapter.is_copy_sent() {
                adapter.end_copy();
            }
            if adapter.is_sent() {
                self.ends = true;
                return session.end_writing(now);
            }
            match session.send_due(adapter, now) {
                IoOutcome::Bytes(_) => {}
                moved => return moved,
            }
        }
        IoOutcome::Nothing
    }

    /// Drops all bytes of the printer that are there.
    fn listen<S: Stream>(&mut self, session: &mut PrinterLink<S>, now: u64) -> IoOutcome {
        let mut buffer = [0u8; SEGMENT];
        for _ in 0..CALLS {
            match session.read(&mut buffer) {
                IoOutcome::Bytes(_) => self.received = now,
                moved => return moved,
            }
        }
        IoOutcome::Nothing
    }

    /// Returns the ms until a printer whose machine has taken all counts as done: it sends nothing for `linger`
    /// ms, or doesn't end for the time that a printer may be silent.
    fn left<S: Stream>(&self, session: &PrinterLink<S>, now: u64) -> u64 {
        let taken = session.silence(now);
        let quiet = taken.min(now.saturating_sub(self.received));
        let longest = session.timeout().max(self.linger);
        self.linger
            .saturating_sub(quiet)
            .min(longest.saturating_sub(taken))
    }
}

impl Protocol for AppSocket {
    fn begin(&mut self, _order: &JobOrder) {}

    fn times(&self, order: &JobOrder) -> u32 {
        order.copies.max(1)
    }

    fn exchange<S: Stream>(
        &mut self,
        session: &mut PrinterLink<S>,
        adapter: &mut AdapterState,
        now: u64,
    ) -> Result<PrinterEvent, AllocError> {
        match self.listen(session, now) {
            IoOutcome::End if self.ends => return Ok(session.record_end(now)),
            IoOutcome::End | IoOutcome::Broken => return Ok(PrinterEvent::Failed(Breach::Broken)),
            IoOutcome::Bytes(_) | IoOutcome::Nothing => {}
        }
        if !self.ends && self.send_all(session, adapter, now) == IoOutcome::Broken {
            return Ok(PrinterEvent::Failed(Breach::Broken));
        }
        if !self.ends || session.has_backlog() {
            return Ok(session.wait(now));
        }
        Ok(if self.left(session, now) == 0 {
            PrinterEvent::Printed(None)
        } else {
            PrinterEvent::Nothing
        })
    }

    fn drop_job(&mut self) {
        self.ends = false;
    }

    fn pause<S: Stream>(&self, session: &PrinterLink<S>, now: u64, has_job: bool) -> Option<u64> {
        if !self.ends || session.has_backlog() {
            return session.pause(now, has_job, session.timeout());
        }
        session.pause(
            now,
            has_job,
            session.silence(now).saturating_add(self.left(session, now)),
        )
    }
}
