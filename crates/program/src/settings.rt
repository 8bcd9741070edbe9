//! Reading settings, or refusing them.
ghost use Rattle.std.specs.Prelude.{◌≡◌, IfOk, IfErr, OnOk, Ok, Some};
ghost use Rattle.settings_file.specs.Settings.{MeetsLimits};
ghost use Rattle.settings_file.specs.Fault.{Fault, fault_of};
ghost use Rattle.settings_file.specs.Reading.{settings_of};
ghost use Rattle.program.specs.RefusedSettings.{settings_refused, Refuses, RefusesAs, WritesLine};

use crate::exit_status::ExitStatus;
use crate::output::write_prefix;
use crate::refusal::refused_line;
use settings_file::{Settings, SettingsFault, read_settings_bytes, write_fault};
use std::alloc::{AllocError, Global};
use std::io::Write;

/// Reads the settings of a file's bytes.
///
/// # Errors
///
/// The exit status, once the line of the first fault is written to `err`: refused; or failed, if memory is
/// refused or the writer fails. Bytes that aren't UTF-8 aren't TOML.
pub fn read_or_refuse<W: Write>(
    alloc: Global,
    bytes: &[u8],
    err: &mut W,
) -> Result<Settings, ExitStatus>
    ensures read { IfOk result (λ settings. settings_of bytes.now ≡ Ok settings) }
    ensures within_limits { IfOk result MeetsLimits }
    ensures silent { OnOk result (err.new ≡ err.old) }
    ensures refused { IfErr result (Refuses bytes.now (W.contents err.old) (W.contents err.new)) }
{
    match read_settings_bytes(alloc, bytes) {
        Ok(settings) => Ok(settings),
        Err(fault) => Err(refuse(alloc, &fault, err)),
    }
}

/// The line for settings that are refused, with the fault.
///
/// # Errors
///
/// The only error is out of memory, which may be the fault itself.
pub fn refusal_line(alloc: Global, fault: &SettingsFault) -> Result<Vec<u8>, AllocError>
    ensures { IfOk result (λ line. (named : Fault) × (fault_of fault.now ≡ Some named) × (line.items ≡ (settings_refused named).text)) }
{
    let mut words = Vec::new(alloc);
    write_fault(fault, &mut words)?;
    refused_line(alloc, &words)
}

/// Writes a line. Returns the exit status.
fn say<W: Write>(line: &[u8], err: &mut W) -> ExitStatus
    ensures { WritesLine line.now (W.contents err.old) (W.contents err.new) result }
{
    if write_prefix(err, line) < line.len() {
        ExitStatus::Failed
    } else {
        ExitStatus::Refused
    }
}

/// Writes the line of a fault. Returns the exit status.
fn refuse<W: Write>(alloc: Global, fault: &SettingsFault, err: &mut W) -> ExitStatus
    ensures { RefusesAs (fault_of fault.now) (W.contents err.old) (W.contents err.new) result }
{
    match refusal_line(alloc, fault) {
        Ok(line) => say(&line, err),
        Err(_) => ExitStatus::Failed,
    }
}
