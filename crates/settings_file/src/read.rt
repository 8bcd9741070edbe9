//! The settings of a text, or its first fault.
ghost use Rattle.std.specs.Prelude.{◌≡◌, IfOk, IfErr, IsErrOf, None};
ghost use Rattle.std.specs.Option.{ForSome};
ghost use Rattle.std.specs.Str.{IsUtf8};
ghost use Rattle.toml.specs.Parse.{parse_document};
ghost use Rattle.toml.specs.View.{table_view};
ghost use Rattle.settings_file.specs.Fault.{Gives, fault_of};
ghost use Rattle.settings_file.specs.Settings.{MeetsLimits};
ghost use Rattle.settings_file.specs.Reading.{settings_in, settings_of, IsFaultOf};

use crate::device::read_devices;
use crate::entry::{know_keys, number, optional_list, tables, text};
use crate::fault::SettingsFault;
use crate::key::Key;
use crate::last_table::LastTable;
use crate::printer::read_printers;
use crate::settings::Settings;
use base_types::Limits;
use std::alloc::Global;
use toml::Table;

const ROOT_KEYS: [Key; 5] = [
    Key::Version,
    Key::UriBase,
    Key::Operators,
    Key::Device,
    Key::Printer,
];

/// Reads the settings of a text of TOML.
///
/// # Errors
///
/// The first fault of the text, in the order of `docs/SETTINGS.md`, or [`SettingsFault::OutOfMemory`], which
/// isn't a fault of the text.
pub fn read_settings(alloc: Global, text: &str) -> Result<Settings, SettingsFault>
    ensures ok { IfOk result (λ settings. settings_of text.now ≡ Ok settings) }
    ensures within_limits { IfOk result MeetsLimits }
    ensures refused { IfErr result (λ e. ForSome (fault_of e) (λ fault. settings_of text.now ≡ Err fault)) }
    ensures no_toml { IsErrOf result SettingsFault.NotToml → parse_document text.now ≡ None }
{
    read_settings_telling(alloc, text, &mut LastTable::Root)
}

/// Reads the settings of a text of TOML. `last` is set to the table that was read last; the first fault of a
/// refused text is in that table. A text that isn't TOML has no table.
///
/// # Errors
///
/// As those of [`read_settings`].
pub fn read_settings_telling(
    alloc: Global,
    text: &str,
    last: &mut LastTable,
) -> Result<Settings, SettingsFault>
    ensures ok { IfOk result (λ settings. settings_of text.now ≡ Ok settings) }
    ensures within_limits { IfOk result MeetsLimits }
    ensures refused { IfErr result (λ e. ForSome (fault_of e) (λ fault. settings_of text.now ≡ Err fault)) }
    ensures no_toml { IsErrOf result SettingsFault.NotToml → parse_document text.now ≡ None }
{
    *last = LastTable::Root;
    read_text(alloc, text, last)
}

/// Reads the settings of a file's bytes. Bytes that aren't UTF-8 aren't TOML.
///
/// # Errors
///
/// As those of [`read_settings`].
pub fn read_settings_bytes(alloc: Global, bytes: &[u8]) -> Result<Settings, SettingsFault>
    ensures ok { IfOk result (λ settings. IsUtf8 bytes.now × (settings_of bytes.now ≡ Ok settings)) }
    ensures within_limits { IfOk result MeetsLimits }
    ensures refused { IfErr result (λ e. ForSome (fault_of e) (IsFaultOf bytes.now)) }
{
    let Ok(text) = std::str::from_utf8(bytes) else {
        return Err(SettingsFault::NotToml);
    };
    read_settings(alloc, text)
}

// Reads the settings of a text.
#[tactic(auto, unfolding(crate::specs::Reading::settings_of))]
fn read_text(alloc: Global, text: &str, last: &mut LastTable) -> Result<Settings, SettingsFault>
    ensures { Gives (λ s. s) result (settings_of text.now) }
{
    match toml::table_from_str(alloc, text) {
        Ok(root) => read_root(alloc, &root, last),
        Err(error) if error.is_memory() => Err(SettingsFault::OutOfMemory),
        Err(_) => Err(SettingsFault::NotToml),
    }
}

// Reads the settings of the root table.
fn read_root(alloc: Global, root: &Table, last: &mut LastTable) -> Result<Settings, SettingsFault>
    ensures { Gives (λ s. s) result (settings_in (table_view root.now)) }
{
    let version = number(root, Key::Version, 1, 2)?;
    let uri_base = text(alloc, root, Key::UriBase)?;
    let operators = optional_list(alloc, root, Key::Operators)?;
    let device_tables = tables(alloc, root, Key::Device, Limits::DEVICES)?;
    let printer_tables = tables(alloc, root, Key::Printer, Limits::PRINTERS)?;
    know_keys(alloc, root, &ROOT_KEYS)?;
    let devices = read_devices(alloc, version, &device_tables, last)?;
    let printers = read_printers(alloc, &devices, &printer_tables, last)?;
    Ok(Settings {
        uri_base,
        operators: operators.unwrap_or(Vec::new(alloc)),
        devices,
        printers,
    })
}
