//! A printer on the network.
use crate::printer::Printer;
use crate::printer_event::{NO_MEMORY, PrinterEvent};
use crate::printer_link::{LinkStage, PrinterLink};
use crate::protocol::Protocol;
use crate::stream::{Network, Readiness, Stream};
use adapter_core::{AdapterState, JobOrder};
use base_types::Text;
use std::rt::Files;

/// A printer on the network, with the connection to it and its protocol.
#[derive(Drop)]
pub struct NetworkPrinter<S: Stream, P: Protocol> {
    session: PrinterLink<S>,
    protocol: P,
}

impl<S: Stream, P: Protocol> NetworkPrinter<S, P> {
    /// Creates a printer without a connection.
    pub fn new(session: PrinterLink<S>, protocol: P) -> NetworkPrinter<S, P> {
        NetworkPrinter { session, protocol }
    }
}

impl<S: Stream, P: Protocol> Printer<S> for NetworkPrinter<S, P> {
    fn begin(&mut self, order: &JobOrder) {
        self.protocol.begin(order);
    }

    fn times(&self, order: &JobOrder) -> u32 {
        self.protocol.times(order)
    }

    fn turn<F: Files, N: Network<Stream = S>>(
        &mut self,
        files: &F,
        network: &N,
        adapter: &mut AdapterState,
        now: u64,
    ) -> PrinterEvent {
        let wanted = self.protocol.wants_connection(adapter, now);
        let event = match self.session.reach(files, network, wanted, now) {
            LinkStage::Waits(event) => Ok(self.protocol.wait(&self.session, event, now)),
            LinkStage::Opened(event) => self.protocol.open(adapter, event),
            LinkStage::Open => self.protocol.exchange(&mut self.session, adapter, now),
        };
        event.unwrap_or(NO_MEMORY)
    }

    fn notified(&mut self, readiness: Readiness) {
        self.session.notified(readiness);
    }

    fn take_media(&mut self) -> Option<Vec<Text>> {
        self.protocol.take_media()
    }

    fn drop_job<F: Files>(&mut self, _files: &F) {
        self.protocol.drop_job();
        self.session.close();
    }

    fn doubt(&mut self, pause: u64, now: u64) {
        self.protocol.doubt(&mut self.session, pause, now);
    }

    fn has_worked(&self) -> bool {
        self.session.has_worked() || self.protocol.goes_on()
    }

    fn pause(&self, now: u64, has_job: bool) -> Option<u64> {
        self.protocol.pause(&self.session, now, has_job)
    }
}
