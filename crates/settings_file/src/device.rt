//! The entries of devices.
ghost use Rattle.std.specs.Prelude.{◌≡◌, [], map};
ghost use Rattle.std.specs.Str.{bytes_eq};
ghost use Rattle.toml.specs.View.{table_view};
ghost use Rattle.settings_file.specs.Fault.{Gives};
ghost use Rattle.settings_file.specs.Device.{device_keys, finishings_named, finishings_of, device_of, devices_of, has_device, place_of};

use crate::entry::{is_among, know_keys, list, number, optional_list, optional_number, text};
use crate::fault::SettingsFault;
use crate::key::Key;
use crate::last_table::LastTable;
use crate::settings::DeviceSettings;
use base_types::{Finishings, Limits, Text};
use std::alloc::Global;
use toml::Table;

// The keys of a device in settings of version 1.
const FIRST_DEVICE_KEYS: [Key; 6] = [
    Key::Name,
    Key::RateOne,
    Key::RateTwo,
    Key::Setup,
    Key::Media,
    Key::Formats,
];

// The keys of a device in settings of version 2.
const DEVICE_KEYS: [Key; 7] = [
    Key::Name,
    Key::RateOne,
    Key::RateTwo,
    Key::Setup,
    Key::Media,
    Key::Formats,
    Key::Finishings,
];

// Returns whether the device has the name.
fn is_named(device: &DeviceSettings, name: &[u8]) -> bool
    ensures { result ≡ bytes_eq device.now.name name.now }
{
    device.name.as_bytes() == name
}

// Returns whether a device has the name.
#[tactic(auto, unfolding(crate::specs::Device::has_device))]
fn has_device(devices: &[DeviceSettings], name: &[u8]) -> bool
    ensures { result ≡ has_device devices.now name.now }
{
    devices.iter().any(|device| is_named(device, name))
}

/// The place of the device with a name.
#[tactic(auto, unfolding(crate::specs::Device::place_of))]
pub(crate) fn place_of(devices: &[DeviceSettings], name: &[u8]) -> Option<usize>
    ensures { result ≡ place_of devices.now name.now }
{
    devices.iter().position(|device| is_named(device, name))
}

// The finishings that a list names.
fn finishings_named(entries: &[Text]) -> Finishings
    ensures { result ≡ finishings_named entries.now }
{
    Finishings {
        staple: is_among(entries, b"staple"),
        punch: is_among(entries, b"punch"),
        bind: is_among(entries, b"bind"),
    }
}

// The finishings of a device.
fn read_finishings(alloc: Global, version: u32, table: &Table) -> Result<Finishings, SettingsFault>
    ensures { Gives (λ f. f) result (finishings_of version (table_view table.now)) }
{
    if version == 1 {
        return Ok(Finishings::none());
    }
    let entries = optional_list(alloc, table, Key::Finishings)?;
    let entries = entries.unwrap_or(Vec::new(alloc));
    Ok(finishings_named(&entries))
}

// The keys of a device, by the version of the settings.
fn device_keys(version: u32) -> &'static [Key]
    ensures { result.now ≡ device_keys version }
{
    if version == 1 {
        &FIRST_DEVICE_KEYS
    } else {
        &DEVICE_KEYS
    }
}

// Reads the device of a table, where the earlier tables have these devices.
fn read_device(
    alloc: Global,
    version: u32,
    earlier: &[DeviceSettings],
    table: &Table,
) -> Result<DeviceSettings, SettingsFault>
    ensures { Gives (λ d. d) result (device_of version earlier.now (table_view table.now)) }
{
    let name = text(alloc, table, Key::Name)?;
    let rate_one = number(table, Key::RateOne, 1, Limits::RATE)?;
    let rate_two = optional_number(table, Key::RateTwo, 1, Limits::RATE)?;
    let setup = optional_number(table, Key::Setup, 0, Limits::SETUP)?;
    let media = list(alloc, table, Key::Media)?;
    let formats = list(alloc, table, Key::Formats)?;
    let finishings = read_finishings(alloc, version, table)?;
    know_keys(alloc, table, device_keys(version))?;
    if has_device(earlier, name.as_bytes()) {
        return Err(SettingsFault::Twice(name));
    }
    Ok(DeviceSettings {
        name,
        rate_one,
        rate_two,
        setup: setup.unwrap_or(0),
        media,
        formats,
        finishings,
    })
}

/// Reads the devices of the tables, in settings of a version. `last` is set to each table that is read.
pub(crate) fn read_devices(
    alloc: Global,
    version: u32,
    tables: &[&Table],
    last: &mut LastTable,
) -> Result<Vec<DeviceSettings>, SettingsFault>
    ensures { Gives (λ v. v.items) result (devices_of version [] (map (λ t. table_view t.now) tables.now)) }
{
    let mut devices = Vec::new(alloc);
    for table in tables {
        last.next_device();
        let device = read_device(alloc, version, &devices, table)?;
        devices.push(device)?;
    }
    Ok(devices)
}
