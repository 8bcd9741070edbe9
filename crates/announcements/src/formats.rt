//! The document formats that the devices of a printer take, and those of them that fit into a TXT record.
ghost use Rattle.std.specs.Prelude.{◌≡◌, ◌++◌, IfOk, OnOk};
ghost use Rattle.announcements.specs.Printer.{formats_at, formats_of, is_among, with_entries, with_entry};
ghost use Rattle.announcements.specs.Records.{formats_text, others_text};

use crate::printer::device_at;
use base_types::{DeviceId, Text};
use settings_file::{PrinterSettings, Settings};
use std::alloc::{AllocError, Global};

/// The formats of the printer's devices in their order, each format once. The only error is out of memory.
pub(crate) fn formats_of(
    alloc: Global,
    settings: &Settings,
    printer: &PrinterSettings,
) -> Result<Vec<Text>, AllocError>
    ensures { IfOk result (λ formats. formats.items ≡ formats_of settings.now printer.now) }
{
    let mut found = Vec::new(alloc);
    let places = printer.devices.devices();
    for place in places {
        add_formats_at(alloc, &mut found, settings, *place)?;
    }
    Ok(found)
}

/// Adds the formats of the device at a place, if there is such a device. The only error is out of memory.
fn add_formats_at(
    alloc: Global,
    found: &mut Vec<Text>,
    settings: &Settings,
    place: DeviceId,
) -> Result<(), AllocError>
    ensures { OnOk result (found.new.items ≡ with_entries found.old.items (formats_at settings.now place)) }
{
    match device_at(settings, place) {
        Some(device) => add_formats(alloc, found, &device.formats),
        None => Ok(()),
    }
}

fn add_formats(alloc: Global, found: &mut Vec<Text>, formats: &[Text]) -> Result<(), AllocError>
    ensures { OnOk result (found.new.items ≡ with_entries found.old.items formats.now) }
{
    for format in formats {
        add_once(alloc, found, format)?;
    }
    Ok(())
}

/// Adds a format, if the list does not have it yet. The only error is out of memory.
fn add_once(alloc: Global, found: &mut Vec<Text>, format: &Text) -> Result<(), AllocError>
    ensures { OnOk result (found.new.items ≡ with_entry found.old.items format.now) }
{
    if !is_among(found, format) {
        let format = format.copied(alloc)?;
        found.push(format)?;
    }
    Ok(())
}

/// Returns whether the list has a format.
fn is_among(found: &[Text], format: &Text) -> bool
    ensures { result ≡ is_among found.now format.now }
{
    found
        .iter()
        .any(|other| other.as_bytes() == format.as_bytes())
}

/// Appends the formats that fit into `room` octets, with a comma before each format but the first. The only
/// error is out of memory.
pub(crate) fn put_formats(
    output: &mut Vec<u8>,
    formats: &[Text],
    room: usize,
) -> Result<(), AllocError>
    ensures { OnOk result (output.new.items ≡ output.old.items ++ formats_text room formats.now) }
{
    let [first, others @ ..] = formats else {
        return Ok(());
    };
    let octets = first.as_bytes().len();
    if room < octets {
        return Ok(());
    }
    output.extend_from_slice(first.as_bytes())?;
    put_others(output, others, room - octets)
}

/// Appends the formats that fit into `room` octets, with a comma before each format. The only error is out of
/// memory.
fn put_others(output: &mut Vec<u8>, formats: &[Text], room: usize) -> Result<(), AllocError>
    ensures { OnOk result (output.new.items ≡ output.old.items ++ others_text room formats.now) }
{
    let [first, others @ ..] = formats else {
        return Ok(());
    };
    let octets = first.as_bytes().len();
    if room <= octets {
        return Ok(());
    }
    output.extend_from_slice(b",")?;
    output.extend_from_slice(first.as_bytes())?;
    put_others(output, others, room - octets - 1)
}
