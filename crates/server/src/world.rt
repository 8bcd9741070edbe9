//! The world outside the engine: a wire and an observer as one.
use dispatcher::{AllocationSite, DeviceRefusal, Dispatched, Observer};
use events::Cancel;
use std::io::IoSlice;
use wires::{Door, Progress, Wire, WireId};

/// A wire and an observer that are lent. The world is a wire by its wire, and an observer by its observer.
#[derive(Drop)]
pub(crate) struct World<'a, W: Wire, N: Observer> {
    pub wire: &'a mut W,
    pub notes: &'a mut N,
}

impl<'a, W: Wire, N: Observer> Wire for World<'a, W, N> {
    ghost use Rattle.server.specs.World.{wire_polled};

    ghost polled = { wire_polled W.polled };

    ghost faults = { λ world. W.faults world.wire.now };

    fn poll_accept(&mut self, door: Door) -> Progress<WireId> {
        self.wire.poll_accept(door)
    }

    fn poll_read(&mut self, id: WireId, buffer: &mut [u8]) -> Progress<usize> {
        self.wire.poll_read(id, buffer)
    }

    fn poll_write(&mut self, id: WireId, bytes: &[IoSlice<'_>]) -> Progress<usize> {
        self.wire.poll_write(id, bytes)
    }

    fn close(&mut self, id: WireId) {
        self.wire.close(id);
    }

    fn failures(&self) -> u64 {
        self.wire.failures()
    }
}

impl<'a, W: Wire, N: Observer> Observer for World<'a, W, N> {
    ghost use Rattle.server.specs.World.{observer_notified};

    ghost notified = { observer_notified N.notified };

    fn dispatched(&mut self, made: &Dispatched<'_>) {
        self.notes.dispatched(made);
    }

    fn canceled(&mut self, cancel: Cancel) {
        self.notes.canceled(cancel);
    }

    fn device_refused(&mut self, id: WireId, why: DeviceRefusal) {
        self.notes.device_refused(id, why);
    }

    fn refused(&mut self, place: AllocationSite, id: Option<WireId>) {
        self.notes.refused(place, id);
    }
}
