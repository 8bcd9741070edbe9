//! The entries of several devices, each once.
ghost use Rattle.std.specs.Prelude.{◌≡◌, OnOk};
ghost use Rattle.printer_objects.specs.Together.{is_among, listed_by, with_entries, with_entry};

use base_types::{DeviceNow, Text};
use std::alloc::{AllocError, Global};

/// A list of a device.
#[derive(Clone, Copy)]
pub(crate) enum Listed {
    /// The document formats that the device prints.
    Formats,
    /// The media that the device can hold.
    Media,
    /// The media that the device holds.
    LoadedMedia,
}

/// Adds the entries of a device's list, each if it isn't there yet. The only error is out of memory.
pub(crate) fn add_listed(
    alloc: Global,
    found: &mut Vec<Text>,
    listed: Listed,
    device: &DeviceNow,
) -> Result<(), AllocError>
    ensures { OnOk result (found.new.items ≡ with_entries found.old.items (listed_by listed device.now)) }
{
    match listed {
        Listed::Formats => add_formats(alloc, found, device),
        Listed::Media => add_media(alloc, found, device),
        Listed::LoadedMedia => add_loaded(alloc, found, device),
    }
}

/// Adds the formats of a device.
fn add_formats(alloc: Global, found: &mut Vec<Text>, device: &DeviceNow) -> Result<(), AllocError>
    ensures { OnOk result (found.new.items ≡ with_entries found.old.items (listed_by Listed.Formats device.now)) }
{
    for format in &device.formats {
        add_once(alloc, found, format)?;
    }
    Ok(())
}

/// Adds the media of a device.
fn add_media(alloc: Global, found: &mut Vec<Text>, device: &DeviceNow) -> Result<(), AllocError>
    ensures { OnOk result (found.new.items ≡ with_entries found.old.items (listed_by Listed.Media device.now)) }
{
    for medium in &device.media {
        add_once(alloc, found, &medium.name)?;
    }
    Ok(())
}

/// Adds the media that a device holds.
fn add_loaded(alloc: Global, found: &mut Vec<Text>, device: &DeviceNow) -> Result<(), AllocError>
    ensures { OnOk result (found.new.items ≡ with_entries found.old.items (listed_by Listed.LoadedMedia device.now)) }
{
    for medium in &device.media {
        if medium.loaded {
            add_once(alloc, found, &medium.name)?;
        }
    }
    Ok(())
}

/// Adds an entry, if it isn't there yet.
pub(crate) fn add_once(alloc: Global, found: &mut Vec<Text>, entry: &Text) -> Result<(), AllocError>
    ensures { OnOk result (found.new.items ≡ with_entry found.old.items entry.now) }
{
    if !is_among(found, entry) {
        let entry = entry.copied(alloc)?;
        found.push(entry)?;
    }
    Ok(())
}

/// Returns whether an entry is there.
fn is_among(found: &[Text], entry: &Text) -> bool
    ensures { result ≡ is_among found.now entry.now }
{
    found
        .iter()
        .any(|other| other.as_bytes() == entry.as_bytes())
}
