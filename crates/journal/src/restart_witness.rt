//! An observer that records what must not happen while an engine plays a file.
ghost use Rattle.std.specs.Prelude.{◌≡◌, false};
ghost use Rattle.journal.specs.Laws.{BeginsNone};

use dispatcher::{AllocationSite, DeviceRefusal, Dispatched, Observer};
use events::Cancel;
use wires::WireId;

/// An observer that records whether a job began, and whether memory was refused.
#[derive(Drop)]
pub(crate) struct RestartWitness {
    pub(crate) began: bool,
    /// Whether memory was refused for something else than a dispatch.
    pub(crate) refused: bool,
    pub(crate) undispatched: bool,
}

impl RestartWitness {
    /// Creates an observer that was not notified yet.
    pub(crate) fn new() -> RestartWitness {
        RestartWitness {
            began: false,
            refused: false,
            undispatched: false,
        }
    }
}

impl Observer for RestartWitness {
    ghost notified = { λ old note new. new.began ≡ false → (old.began ≡ false) × BeginsNone note };

    fn dispatched(&mut self, made: &Dispatched<'_>) {
        if !made.started().is_empty() {
            self.began = true;
        }
    }

    fn canceled(&mut self, _cancel: Cancel) {}

    fn device_refused(&mut self, _id: WireId, _why: DeviceRefusal) {}

    fn refused(&mut self, place: AllocationSite, _id: Option<WireId>) {
        match place {
            AllocationSite::Dispatch => self.undispatched = true,
            _ => self.refused = true,
        }
    }
}
