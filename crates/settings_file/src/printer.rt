//! The entries of printers.
ghost use Rattle.std.specs.Prelude.{◌≡◌, [], map};
ghost use Rattle.std.specs.Str.{bytes_eq};
ghost use Rattle.toml.specs.View.{table_view};
ghost use Rattle.settings_file.specs.Fault.{Gives};
ghost use Rattle.settings_file.specs.Printer.{has_printer, places_of, printer_of, printers_of};

use crate::device::place_of;
use crate::entry::{know_keys, list, text};
use crate::fault::SettingsFault;
use crate::key::Key;
use crate::last_table::LastTable;
use crate::settings::{DeviceSettings, PrinterSettings};
use base_types::{DeviceId, PrinterSet, Text};
use std::alloc::Global;
use toml::Table;

const PRINTER_KEYS: [Key; 4] = [
    Key::Name,
    Key::Devices,
    Key::MediaDefault,
    Key::FormatDefault,
];

// Returns whether the printer has the name.
fn is_named(printer: &PrinterSettings, name: &[u8]) -> bool
    ensures { result ≡ bytes_eq printer.now.name name.now }
{
    printer.name.as_bytes() == name
}

// Returns whether a printer has the name.
#[tactic(auto, unfolding(crate::specs::Printer::has_printer))]
fn has_printer(printers: &[PrinterSettings], name: &[u8]) -> bool
    ensures { result ≡ has_printer printers.now name.now }
{
    printers.iter().any(|printer| is_named(printer, name))
}

// Finds the devices with these names.
fn find_devices(
    alloc: Global,
    devices: &[DeviceSettings],
    names: &[Text],
) -> Result<Vec<DeviceId>, SettingsFault>
    ensures { Gives (λ v. v.items) result (places_of devices.now names.now) }
{
    let mut places = Vec::new(alloc);
    for name in names {
        match place_of(devices, name.as_bytes()) {
            Some(place) => places.push(DeviceId::new(place))?,
            None => return Err(SettingsFault::Unknown(name.copied(alloc)?)),
        }
    }
    Ok(places)
}

// Reads the printer of a table, where the earlier tables have these printers.
fn read_printer(
    alloc: Global,
    devices: &[DeviceSettings],
    earlier: &[PrinterSettings],
    table: &Table,
) -> Result<PrinterSettings, SettingsFault>
    ensures { Gives (λ p. p) result (printer_of devices.now earlier.now (table_view table.now)) }
{
    let name = text(alloc, table, Key::Name)?;
    let names = list(alloc, table, Key::Devices)?;
    let media_default = text(alloc, table, Key::MediaDefault)?;
    let format_default = text(alloc, table, Key::FormatDefault)?;
    know_keys(alloc, table, &PRINTER_KEYS)?;
    if has_printer(earlier, name.as_bytes()) {
        return Err(SettingsFault::Twice(name));
    }
    let devices = find_devices(alloc, devices, &names)?;
    Ok(PrinterSettings {
        name,
        devices: PrinterSet::new(devices),
        media_default,
        format_default,
    })
}

/// Reads the printers of the tables, whose devices are among `devices`. `last` is set to each table that is
/// read.
pub(crate) fn read_printers(
    alloc: Global,
    devices: &[DeviceSettings],
    tables: &[&Table],
    last: &mut LastTable,
) -> Result<Vec<PrinterSettings>, SettingsFault>
    ensures { Gives (λ v. v.items) result (printers_of devices.now [] (map (λ t. table_view t.now) tables.now)) }
{
    let mut printers = Vec::new(alloc);
    for table in tables {
        last.next_printer();
        let printer = read_printer(alloc, devices, &printers, table)?;
        printers.push(printer)?;
    }
    Ok(printers)
}
