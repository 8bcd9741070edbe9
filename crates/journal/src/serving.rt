//! The turns of an engine that serves a client in memory.
ghost use Rattle.std.specs.Prelude.{OnOk};
ghost use Rattle.journal.specs.File.{KeepsPlayed};

use crate::client::Client;
use crate::filing::file_turn;
use crate::resubmission_fault::ResubmissionFault;
use crate::resumption::JournaledEngine;
use crate::storage::Storage;
use base_types::Moment;
use recordings::RecordingWire;
use std::alloc::Global;

/// Has an engine take turns at a moment until a client's connection is closed, and appends them to a storage.
pub(crate) fn serve<T: Storage>(
    alloc: Global,
    client: Client,
    engine: &mut JournaledEngine,
    moment: Moment,
    storage: &mut T,
) -> Result<(), ResubmissionFault>
    ensures { OnOk result (KeepsPlayed (T.stored storage.old) engine.old (T.stored storage.new) engine.new) }
{
    let mut wire = RecordingWire::new(alloc, client);
    wire.notes.begin(false);
    for _ in 0..u64::MAX {
        file_turn(engine, &mut wire, moment, storage)?;
        if wire.wire.closed {
            break;
        }
    }
    Ok(())
}
