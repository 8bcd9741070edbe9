//! A wire whose connections are lost.
ghost use Rattle.std.specs.Prelude.{◌≡◌, ℕ, true};
ghost use Rattle.wires.specs.Poll.{IsCount, HasCause};
ghost use Rattle.journal.specs.Passing.{IsLost};

use std::io::IoSlice;
use wires::{Door, Progress, Wire, WireId};

/// A wire on which no connection comes, and each read and each write fails.
#[derive(Drop)]
pub struct LostWire {
    failures: u64,
    /// Whether each read and each write failed. Their number is limited.
    pub all_failed: bool,
}

impl LostWire {
    /// Creates a wire that was asked nothing yet.
    pub fn new() -> LostWire {
        LostWire {
            failures: 0,
            all_failed: true,
        }
    }

    /// Returns the answer of a read or a write, which is counted as a failure if the count isn't full.
    fn fail(&mut self) -> Progress<usize>
        ensures count { (room : ℕ) → IsCount result room }
        ensures cause { HasCause self.old.failures self.new.failures result }
        ensures fails { self.new.all_failed ≡ true → (self.old.all_failed ≡ true) × (result ≡ Progress.Fault) }
    {
        if self.failures == u64::MAX {
            self.all_failed = false;
            return Progress::Waiting;
        }
        self.failures += 1;
        Progress::Fault
    }
}

impl Wire for LostWire {
    ghost polled = { λ old poll new. new.all_failed ≡ true → (old.all_failed ≡ true) × IsLost poll };

    ghost faults = { λ w. w.failures };

    fn poll_accept(&mut self, _door: Door) -> Progress<WireId> {
        Progress::Waiting
    }

    fn poll_read(&mut self, _id: WireId, _buffer: &mut [u8]) -> Progress<usize> {
        self.fail()
    }

    fn poll_write(&mut self, _id: WireId, _bytes: &[IoSlice<'_>]) -> Progress<usize> {
        self.fail()
    }

    fn close(&mut self, _id: WireId) {}

    fn failures(&self) -> u64 {
        self.failures
    }
}
