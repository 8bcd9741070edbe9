//! An observer that records whether it was notified.
ghost use Rattle.std.specs.Prelude.{◌≡◌, true, false};

use dispatcher::{AllocationSite, DeviceRefusal, Dispatched, Observer};
use events::Cancel;
use wires::WireId;

/// An observer that passes its notes on, and records whether it was notified, and whether a growth was
/// refused.
#[derive(Drop)]
pub(crate) struct ObservationFlags<N: Observer> {
    pub(crate) observer: N,
    pub(crate) notified: bool,
    pub(crate) refused: bool,
}

impl<N: Observer> ObservationFlags<N> {
    /// Creates an observer that was not notified yet.
    pub(crate) fn new(observer: N) -> ObservationFlags<N>
        ensures observer { result.observer ≡ observer }
        ensures notified { result.notified ≡ false }
    {
        ObservationFlags {
            observer,
            notified: false,
            refused: false,
        }
    }
}

impl<N: Observer> Observer for ObservationFlags<N> {
    ghost notified = { λ old note new. N.notified old.observer note new.observer × (new.notified ≡ true) };

    fn dispatched(&mut self, made: &Dispatched<'_>) {
        self.notified = true;
        self.observer.dispatched(made);
    }

    fn canceled(&mut self, cancel: Cancel) {
        self.notified = true;
        self.observer.canceled(cancel);
    }

    fn device_refused(&mut self, id: WireId, why: DeviceRefusal) {
        self.notified = true;
        self.observer.device_refused(id, why);
    }

    fn refused(&mut self, place: AllocationSite, id: Option<WireId>) {
        self.notified = true;
        self.refused = true;
        self.observer.refused(place, id);
    }
}
