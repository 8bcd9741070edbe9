//! The printers that are paused.
ghost use Rattle.std.specs.Prelude.{◌≡◌, IfOk, OnOk, filter, map};
ghost use Rattle.std.specs.List.{enumerate_from};
ghost use Rattle.spool.specs.Calls.{paused_at};
ghost use Rattle.journal.specs.File.{KeepsPlayed};
ghost use Rattle.journal.specs.Pausing.{paused_names, is_unpaused};

use crate::requests::pauses;
use crate::resubmission_fault::ResubmissionFault;
use crate::resumption::JournaledEngine;
use crate::serving::serve;
use crate::storage::Storage;
use crate::unsent::Unsent;
use base_types::{Moment, PrinterId, Text};
use settings_file::PrinterSettings;
use std::alloc::{AllocError, Global};

/// The names of the printers that are paused, in the order of the settings. The only error is out of memory.
pub fn paused_printers(alloc: Global, engine: &JournaledEngine) -> Result<Vec<Text>, AllocError>
    ensures { IfOk result (λ names. names.items ≡ paused_names engine.now.core) }
{
    paused_among(alloc, &engine.settings().printers, engine)
}

/// The names of the printers that are paused, of all printers of an engine. The only error is out of memory.
fn paused_among(
    alloc: Global,
    printers: &[PrinterSettings],
    engine: &JournaledEngine,
) -> Result<Vec<Text>, AllocError>
    ensures { IfOk result (λ names. names.items ≡ map (λ found. found.1.name) (filter (λ found. paused_at engine.now.core.paused found.0) (enumerate_from 0 printers.now))) }
{
    let mut names = Vec::new(alloc);
    for (place, printer) in printers.iter().enumerate() {
        if engine.is_paused(PrinterId::new(place)) {
            names.push(printer.name.copied(alloc)?)?;
        }
    }
    Ok(names)
}

/// Returns whether the settings have a printer of a name, and it isn't paused.
fn is_unpaused(engine: &JournaledEngine, name: &Text) -> bool
    ensures { result ≡ is_unpaused engine.now.core name.now }
{
    match engine.settings().printer_named(name.as_bytes()) {
        Some(printer) => !engine.is_paused(printer),
        None => false,
    }
}

/// The names of printers that the settings have and that aren't paused, among these. The only error is out of memory.
fn unpaused_printers(
    alloc: Global,
    names: &[Text],
    engine: &JournaledEngine,
) -> Result<Vec<Text>, AllocError>
    ensures { IfOk result (λ left. left.items ≡ filter (is_unpaused engine.now.core) names.now) }
{
    let mut left = Vec::new(alloc);
    for name in names {
        if is_unpaused(engine, name) {
            left.push(name.copied(alloc)?)?;
        }
    }
    Ok(left)
}

/// Pauses the printers of these names, by requests of an operator over a connection in memory, and appends the turns
/// to a storage. Returns the names of those that the settings have and that aren't paused then: all, if the settings
/// name no operator.
///
/// The error is out of memory, or that the storage takes no lines.
pub fn pause_printers<T: Storage>(
    alloc: Global,
    names: &[Text],
    engine: &mut JournaledEngine,
    moment: Moment,
    storage: &mut T,
) -> Result<Vec<Text>, ResubmissionFault>
    ensures played { OnOk result (KeepsPlayed (T.stored storage.old) engine.old (T.stored storage.new) engine.new) }
    ensures left { IfOk result (λ left. left.items ≡ filter (is_unpaused engine.new.core) names.now) }
{
    request_pauses(alloc, names, engine, moment, storage)?;
    match unpaused_printers(alloc, names, engine) {
        Ok(left) => Ok(left),
        Err(_) => Err(ResubmissionFault::OutOfMemory),
    }
}

/// Requests that the printers of these names are paused, if the settings name an operator.
fn request_pauses<T: Storage>(
    alloc: Global,
    names: &[Text],
    engine: &mut JournaledEngine,
    moment: Moment,
    storage: &mut T,
) -> Result<(), ResubmissionFault>
    ensures { OnOk result (KeepsPlayed (T.stored storage.old) engine.old (T.stored storage.new) engine.new) }
{
    if names.is_empty() {
        return Ok(());
    }
    let made = match engine.settings().operators.first() {
        Some(operator) => pauses(alloc, names, operator),
        None => return Ok(()),
    };
    match made {
        Ok(client) => serve(alloc, client, engine, moment, storage),
        Err(Unsent::OutOfMemory) => Err(ResubmissionFault::OutOfMemory),
        Err(Unsent::Unspellable) => Ok(()),
    }
}
