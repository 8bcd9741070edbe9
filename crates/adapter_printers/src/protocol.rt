//! The trait of protocols.
use crate::printer_event::PrinterEvent;
use crate::printer_link::PrinterLink;
use crate::stream::Stream;
use adapter_core::{AdapterState, JobOrder};
use base_types::Text;
use std::alloc::AllocError;

/// The protocol of the connections to a printer. It has at most one job.
pub trait Protocol: Drop {
    /// Begins a job.
    fn begin(&mut self, order: &JobOrder);

    /// How often the printer is sent the octets of a job: once, if it makes the copies itself.
    fn times(&self, _order: &JobOrder) -> u32 {
        1
    }

    /// Returns whether a connection is wanted now: while there is a job.
    fn wants_connection(&mut self, adapter: &AdapterState, _now: u64) -> bool {
        adapter.job().is_some()
    }

    /// The result of a turn without a connection; `event` is the result of the try to connect.
    fn wait<S: Stream>(
        &mut self,
        _session: &PrinterLink<S>,
        event: PrinterEvent,
        _now: u64,
    ) -> PrinterEvent {
        event
    }

    /// The result of a turn in which the connection was made; `event` is the result of the connection.
    fn open(
        &mut self,
        _adapter: &AdapterState,
        event: PrinterEvent,
    ) -> Result<PrinterEvent, AllocError> {
        Ok(event)
    }

    /// Reads from the printer and sends the bytes that are due, without blocking.
    fn exchange<S: Stream>(
        &mut self,
        session: &mut PrinterLink<S>,
        adapter: &mut AdapterState,
        now: u64,
    ) -> Result<PrinterEvent, AllocError>;

    /// Removes and returns the loaded media, if the printer reported them anew.
    fn take_media(&mut self) -> Option<Vec<Text>> {
        None
    }

    /// Drops the job, whose connection is closed.
    fn drop_job(&mut self);

    /// Records that the printer failed a job: the printer is tried again after `pause` ms.
    fn doubt<S: Stream>(&mut self, session: &mut PrinterLink<S>, pause: u64, now: u64) {
        session.doubt(pause, now);
    }

    /// Returns whether there is work to do although no bytes were moved.
    fn goes_on(&self) -> bool {
        false
    }

    /// Returns the ms until there is work to do without an event, if there will be.
    fn pause<S: Stream>(&self, session: &PrinterLink<S>, now: u64, has_job: bool) -> Option<u64> {
        session.pause(now, has_job, session.timeout())
    }
}
