//! The trait of printers.
use crate::printer_event::PrinterEvent;
use crate::stream::{Network, Readiness, Stream};
use adapter_core::{AdapterState, JobOrder};
use base_types::Text;
use std::rt::Files;

/// A printer. It has at most one job: after [`Printer::begin`] it goes on with the job in each turn, until a
/// turn returns that the job is printed or has failed, or the job is dropped. A printer is tried before its
/// first job: the first result is [`PrinterEvent::Back`], or that it can't print.
pub trait Printer<S: Stream>: Drop {
    /// Begins a job.
    fn begin(&mut self, order: &JobOrder);

    /// How often the printer is sent the octets of a job: once, if it makes the copies itself.
    fn times(&self, _order: &JobOrder) -> u32 {
        1
    }

    /// Goes on with the adapter's job, if there is one, without blocking. `now` is the moment in ms.
    fn turn<F: Files, N: Network<Stream = S>>(
        &mut self,
        files: &F,
        network: &N,
        adapter: &mut AdapterState,
        now: u64,
    ) -> PrinterEvent;

    /// Takes the result of a wait.
    fn notified(&mut self, readiness: Readiness);

    /// Removes and returns the loaded media, if the printer reported them anew.
    fn take_media(&mut self) -> Option<Vec<Text>> {
        None
    }

    /// Drops the job.
    fn drop_job<F: Files>(&mut self, files: &F);

    /// Records that the printer failed a job. It is tried again after `pause` ms, and then after longer pauses,
    /// until that works: [`PrinterEvent::Back`].
    fn doubt(&mut self, pause: u64, now: u64);

    /// Returns whether the last turn moved bytes; then another turn may move more.
    fn has_worked(&self) -> bool;

    /// Returns the ms until the printer has work to do without an event, if it has.
    fn pause(&self, now: u64, has_job: bool) -> Option<u64>;
}
