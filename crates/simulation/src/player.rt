//! A server that acts on the lines of a trace, and whose jobs are observed.

use crate::recorder::Recorder;
use base_types::{DeviceId, Moment, Report, Text};
use plan_solver::AugmentingPaths;
use server::{Engine, NoteLog};
use std::alloc::{AllocError, Global};
use traces::{Input, Line, LineFault, Opening, Peers, form_fault, read_line};

/// The most turns that are taken for one line.
const MOST_TURNS: usize = 16_777_216;

/// A server, its connections with their peers, and the record of its jobs.
#[derive(Drop)]
pub(crate) struct Player<'a> {
    alloc: Global,
    engine: &'a mut Engine<AugmentingPaths>,
    peers: Peers,
    notes: NoteLog,
    /// The current moment of the trace.
    moment: Moment,
    /// The moment of the last event.
    now: Moment,
    recorder: Recorder,
}

impl<'a> Player<'a> {
    /// Creates the player of a server that has started, without connections.
    pub(crate) fn new(alloc: Global, engine: &'a mut Engine<AugmentingPaths>) -> Player<'a> {
        Player {
            alloc,
            engine,
            peers: Peers::new(alloc),
            notes: NoteLog::new(alloc),
            moment: Moment::start(),
            now: Moment::start(),
            recorder: Recorder::new(alloc),
        }
    }

    /// The moment of the last event, in ms.
    pub(crate) fn end(&self) -> u64 {
        self.now.millis()
    }

    /// Removes and returns the record, and begins an empty one.
    pub(crate) fn take_recorder(&mut self) -> Recorder {
        std::mem::replace(&mut self.recorder, Recorder::new(self.alloc))
    }

    /// Acts on a line, where the devices have these names. The inner error is the line's fault.
    pub(crate) fn act(
        &mut self,
        bytes: &[u8],
        names: &[Text],
    ) -> Result<Result<(), LineFault>, AllocError> {
        let Some(line) = read_line(self.alloc, bytes, names)? else {
            return Ok(Err(form_fault(bytes)));
        };
        if let Some(fault) = self.peers.objection(&line) {
            return Ok(Err(fault));
        }
        self.give(line)?;
        Ok(Ok(()))
    }

    /// Takes the actions of a line.
    fn give(&mut self, line: Line) -> Result<(), AllocError> {
        match line {
            Line::At(moment) => {
                self.moment = moment;
                Ok(())
            }
            Line::Ipp(body) => self.serve(&body),
            Line::Device(device, report) => self.report(device, report),
            Line::Tick => self.tick(),
            Line::Open(opening) => self.open(opening),
            Line::In(input) => self.bring(&input),
            Line::End(number) => self.end_input(number),
        }
    }

    /// Serves the body of a request, without a connection.
    fn serve(&mut self, body: &[u8]) -> Result<(), AllocError> {
        let _served = self.engine.serve_body(body, &mut self.notes, self.moment)?;
        self.record_outcome()
    }

    /// Acts on a device's report.
    fn report(&mut self, device: DeviceId, report: Report) -> Result<(), AllocError> {
        self.engine
            .report(device, report, &mut self.notes, self.moment)?;
        self.record_outcome()
    }

    /// Acts on a tick.
    fn tick(&mut self) -> Result<(), AllocError> {
        self.engine.tick(&mut self.notes, self.moment)?;
        self.record_outcome()
    }

    /// Records the result of an event.
    fn record_outcome(&mut self) -> Result<(), AllocError> {
        self.now = self.moment.later(self.now);
        let notes = self.notes.take()?;
        self.recorder.record(self.engine, &notes, self.now.millis())
    }

    /// Opens a connection.
    fn open(&mut self, opening: Opening) -> Result<(), AllocError> {
        self.peers.open(opening)?;
        self.take_turns()
    }

    /// Brings bytes to a connection.
    fn bring(&mut self, input: &Input) -> Result<(), AllocError> {
        self.peers.send(input)?;
        self.take_turns()
    }

    /// Ends the input of a connection.
    fn end_input(&mut self, number: u64) -> Result<(), AllocError> {
        self.peers.end(number);
        self.take_turns()
    }

    /// Takes turns up to one in which each poll waits, and records the result of each.
    fn take_turns(&mut self) -> Result<(), AllocError> {
        for _turn in 0..MOST_TURNS {
            self.peers.wire.stirred = false;
            self.engine
                .turn(&mut self.peers.wire, &mut self.notes, self.moment);
            self.record_outcome()?;
            if self.peers.wire.failed {
                return Err(AllocError);
            }
            if !self.peers.wire.stirred {
                return Ok(());
            }
        }
        Ok(())
    }
}
