//! The wire of a trace.
ghost use Rattle.std.specs.Prelude.{◌≡◌, [], false, true};
ghost use Rattle.traces.specs.Wire.{has_input};

use std::alloc::Global;
use std::io::IoSlice;
use wires::{Door, MemoryWire, Progress, Wire, WireId};

/// A wire in memory that records the results of its polls.
#[derive(Drop)]
pub struct TraceWire {
    pub memory: MemoryWire,
    /// Whether a poll had an answer other than `Waiting` since the flag was last cleared.
    pub stirred: bool,
    /// Whether a poll failed, or waited although bytes could be moved.
    pub failed: bool,
}

impl TraceWire {
    /// Creates a wire without peers.
    pub fn new(alloc: Global) -> TraceWire
        ensures empty { result.memory.peers.items ≡ [] }
        ensures prompt { result.failed ≡ false }
    {
        TraceWire {
            memory: MemoryWire::new(Vec::new(alloc)),
            stirred: false,
            failed: false,
        }
    }

    /// Records that a poll had an answer other than `Waiting`.
    fn stir(&mut self)
        ensures { self.new ≡ record self.old { stirred = true } }
    {
        self.stirred = true;
    }

    /// Records that a poll failed.
    fn fail(&mut self)
        ensures { self.new ≡ record self.old { stirred = true; failed = true } }
    {
        self.stirred = true;
        self.failed = true;
    }

    /// Records that a poll waited. `wrongly` indicates whether bytes could be moved.
    fn wait(&mut self, wrongly: bool)
        ensures same { self.new.memory ≡ self.old.memory }
        ensures stirred { self.new.stirred ≡ self.old.stirred }
        ensures failed { self.new.failed ≡ false → (self.old.failed ≡ false) × (wrongly ≡ false) }
    {
        self.failed = self.failed || wrongly;
    }

    /// Returns whether the peer of a number has bytes that weren't read.
    fn has_input(&self, id: WireId) -> bool
        ensures { result ≡ has_input id self.now.memory.peers.items }
    {
        match self.memory.peers.get(id as usize) {
            Some(peer) => !peer.input.is_empty(),
            None => false,
        }
    }
}

impl Wire for TraceWire {
    ghost use Rattle.traces.specs.Wire.{WirePolls};

    ghost polled = { WirePolls };

    ghost faults = { λ w. w.memory.faults };

    fn poll_accept(&mut self, door: Door) -> Progress<WireId> {
        let answer = self.memory.poll_accept(door);
        match answer {
            Progress::Done(_) | Progress::End => self.stir(),
            Progress::Waiting => {}
            Progress::Fault => self.fail(),
        }
        answer
    }

    fn poll_read(&mut self, id: WireId, buffer: &mut [u8]) -> Progress<usize> {
        let answer = self.memory.poll_read(id, buffer);
        match answer {
            Progress::Done(_) | Progress::End => self.stir(),
            Progress::Waiting => {
                let wrongly = self.has_input(id);
                self.wait(wrongly);
            }
            Progress::Fault => self.fail(),
        }
        answer
    }

    fn poll_write(&mut self, id: WireId, bytes: &[IoSlice<'_>]) -> Progress<usize> {
        let answer = self.memory.poll_write(id, bytes);
        match answer {
            Progress::Done(_) | Progress::End => self.stir(),
            Progress::Waiting => self.wait(true),
            Progress::Fault => self.fail(),
        }
        answer
    }

    fn close(&mut self, id: WireId) {
        self.memory.close(id);
    }

    fn failures(&self) -> u64 {
        self.memory.failures()
    }
}
