//! A wire over a wire, of which only some calls pass.
ghost use Rattle.std.specs.Prelude.{◌≡◌};
ghost use Rattle.journal.specs.Passing.{after, Passes};

use std::alloc::Global;
use std::io::IoSlice;
use wires::{Door, Progress, Wire, WireId};

/// Which calls of a wire pass. A close always passes.
#[derive(Clone, Copy, PartialEq, Eq)]
pub enum Pass {
    All,
    /// Accepts and reads: what comes.
    Inward,
    /// Writes: what goes out. After the first close, and after the first write that ends or fails, only closes
    /// pass ([`Pass::Shut`]): a job that begins then isn't sent yet.
    Outward,
    Shut,
}

/// A wire that passes some calls to another wire. Any other call would have to wait, and the other wire isn't
/// asked.
#[derive(Drop)]
pub struct Gate<W: Wire> {
    pub wire: W,
    pub pass: Pass,
    /// The connections on which a write had to wait since the last call of [`Gate::set`], since it didn't pass.
    held: Vec<WireId>,
    /// Whether `held` lacks one, since memory was refused.
    lacks: bool,
}

impl<W: Wire> Gate<W> {
    /// Creates a gate that passes all calls.
    pub fn new(alloc: Global, wire: W) -> Gate<W>
        ensures wire { result.wire ≡ wire }
        ensures pass { result.pass ≡ Pass.All }
    {
        Gate {
            wire,
            pass: Pass::All,
            held: Vec::new(alloc),
            lacks: false,
        }
    }

    /// Sets which calls pass.
    pub fn set(&mut self, pass: Pass)
        ensures wire { self.new.wire ≡ self.old.wire }
        ensures pass { self.new.pass ≡ pass }
    {
        self.pass = pass;
        self.held.clear();
        self.lacks = false;
    }

    /// The connections on which a write had to wait after the last call of [`Gate::set`], since it didn't pass.
    /// `None` if memory for one was refused.
    pub fn held(&self) -> Option<&[WireId]> {
        if self.lacks { None } else { Some(&self.held) }
    }

    /// Records that a write of a connection has to wait.
    fn hold(&mut self, id: WireId)
        ensures wire { self.new.wire ≡ self.old.wire }
        ensures pass { self.new.pass ≡ self.old.pass }
    {
        if self.held.push(id).is_err() {
            self.lacks = true;
        }
    }
}

impl<W: Wire> Wire for Gate<W> {
    ghost polled = { λ old poll new. (new.pass ≡ after old.pass poll) × Passes W.polled old.pass old.wire poll new.wire };

    ghost faults = { λ g. W.faults g.wire };

    fn poll_accept(&mut self, door: Door) -> Progress<WireId> {
        match self.pass {
            Pass::All | Pass::Inward => self.wire.poll_accept(door),
            Pass::Outward | Pass::Shut => Progress::Waiting,
        }
    }

    fn poll_read(&mut self, id: WireId, buffer: &mut [u8]) -> Progress<usize> {
        match self.pass {
            Pass::All | Pass::Inward => self.wire.poll_read(id, buffer),
            Pass::Outward | Pass::Shut => Progress::Waiting,
        }
    }

    fn poll_write(&mut self, id: WireId, bytes: &[IoSlice<'_>]) -> Progress<usize> {
        match self.pass {
            Pass::All => self.wire.poll_write(id, bytes),
            Pass::Outward => match self.wire.poll_write(id, bytes) {
                Progress::Done(count) => Progress::Done(count),
                Progress::Waiting => Progress::Waiting,
                Progress::End => {
                    self.pass = Pass::Shut;
                    Progress::End
                }
                Progress::Fault => {
                    self.pass = Pass::Shut;
                    Progress::Fault
                }
            },
            Pass::Inward | Pass::Shut => {
                self.hold(id);
                Progress::Waiting
            }
        }
    }

    fn close(&mut self, id: WireId) {
        self.wire.close(id);
        match self.pass {
            Pass::All => {}
            Pass::Inward => {}
            Pass::Outward => self.pass = Pass::Shut,
            Pass::Shut => {}
        }
    }

    fn failures(&self) -> u64 {
        self.wire.failures()
    }
}
