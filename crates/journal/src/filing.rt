//! A turn whose lines are stored at once.
ghost use Rattle.std.specs.Prelude.{◌≡◌, [], Some, OnOk, false};
ghost use Rattle.journal.specs.File.{KeepsPlayed};

use crate::restart_witness::RestartWitness;
use crate::resumption::JournaledEngine;
use crate::storage::Storage;
use base_types::Moment;
use recordings::RecordingWire;
use std::alloc::AllocError;
use wires::Wire;

/// Why a turn isn't stored. The engine has taken it, so that it is at no trace of the stored lines.
#[derive(Clone, Copy, PartialEq, Eq)]
pub enum FilingFault {
    /// Memory was refused in the turn or for its lines.
    OutOfMemory,
    /// The storage takes no lines.
    NotStored,
}

impl From<AllocError> for FilingFault {
    fn from(_error: AllocError) -> FilingFault {
        FilingFault::OutOfMemory
    }
}

/// Has an engine take a turn at a moment over a wire that notes its calls, and appends the lines of the turn to a
/// storage. If the engine was at the trace of the stored lines, it is at the trace of those stored now.
pub fn file_turn<W: Wire, T: Storage>(
    engine: &mut JournaledEngine,
    wire: &mut RecordingWire<W>,
    moment: Moment,
    storage: &mut T,
) -> Result<(), FilingFault>
    requires { wire.old.notes ≡ record { lines = Some []; heads = false } }
    ensures notes { OnOk result (wire.new.notes ≡ record { lines = Some []; heads = false }) }
    ensures played { OnOk result (KeepsPlayed (T.stored storage.old) engine.old (T.stored storage.new) engine.new) }
{
    let mut witness = RestartWitness::new();
    engine.turn(wire, &mut witness, moment);
    if witness.refused || witness.undispatched {
        return Err(FilingFault::OutOfMemory);
    }
    wire.notes.end_turn(moment, false);
    if !wire.notes.keeps() {
        return Err(FilingFault::OutOfMemory);
    }
    if !storage.append(wire.notes.text()) {
        return Err(FilingFault::NotStored);
    }
    wire.notes.clear();
    Ok(())
}
