//! The settings of a file, and the built-in settings.
ghost use Rattle.std.specs.Prelude.{IfOk};
ghost use Rattle.settings_file.specs.Settings.{MeetsLimits};

use crate::failure::{
    cannot, end_written, or_cannot, or_cannot_with, or_no_memory, or_no_memory_with, write_text,
};
use announcements::{Ports, ipp_port, only_printer, printer_named, write_service};
use command_line::AboutSettings;
use program::{BUILT_IN_SETTINGS, ExitStatus, read_or_refuse};
use quotes::Escaped;
use settings_advice::advice_on;
use settings_file::{PrinterSettings, Settings, explain};
use std::io::Write;
use std::{fs, io};

/// Reports the fault in the settings of a file, if there is a fault. An error is reported, and its exit
/// status returned.
fn say_fault(rt: &HostRuntime, file: &str, bytes: &[u8]) -> Result<(), ExitStatus> {
    match or_no_memory_with(rt, "read", file, explain(rt.alloc(), file, bytes))? {
        Some(sentence) => {
            let sentence = Escaped(sentence.as_bytes());
            or_cannot(rt, "write to standard error", eprintln!(rt; "{sentence}"))
        }
        None => Ok(()),
    }
}

/// The settings of the text of a file. The first fault of a refused text is reported in a sentence, and then
/// in a line for programs; its exit status is returned.
pub(crate) fn settings_in(
    rt: &HostRuntime,
    file: &str,
    bytes: &[u8],
) -> Result<Settings, ExitStatus>
    ensures { IfOk result MeetsLimits }
{
    say_fault(rt, file, bytes)?;
    read_or_refuse(rt.alloc(), bytes, &mut rt.stderr())
}

/// The settings of a file. An error is reported, and its exit status returned.
pub(crate) fn settings_of(rt: &HostRuntime, file: &str) -> Result<Settings, ExitStatus>
    ensures { IfOk result MeetsLimits }
{
    let bytes = read_file(rt, file)?;
    settings_in(rt, file, &bytes)
}

/// The bytes of a file. An error is reported, and its exit status returned.
pub(crate) fn read_file(rt: &HostRuntime, file: &str) -> Result<Vec<u8>, ExitStatus> {
    or_cannot_with(rt, "read", file, fs::read(rt, file))
}

/// The text of the built-in settings. An error is reported, and its exit status returned.
pub(crate) fn built_in_text(rt: &HostRuntime) -> Result<Vec<u8>, ExitStatus> {
    let text = Vec::from_slice(rt.alloc(), BUILT_IN_SETTINGS.as_bytes());
    or_no_memory(rt, "read the settings that are built in", text)
}

/// Shows the built-in settings.
fn show_built_in(rt: &HostRuntime) -> Result<ExitStatus, ExitStatus> {
    write_text(rt, BUILT_IN_SETTINGS)
}

/// Writes what the settings of a file allow and hardly mean, in a line of standard error for each.
fn advise(rt: &HostRuntime, file: &str, settings: &Settings) -> Result<(), ExitStatus> {
    let advice = or_no_memory_with(rt, "read", file, advice_on(rt.alloc(), settings))?;
    let file = Escaped(file.as_bytes());
    for one in &advice {
        let printed = eprintln!(rt; "printd: {file}: warning: {one}");
        or_cannot(rt, "write to standard error", printed)?;
    }
    Ok(())
}

/// Judges the settings of a file.
fn judge(rt: &HostRuntime, file: &str) -> Result<ExitStatus, ExitStatus> {
    let settings = settings_of(rt, file)?;
    advise(rt, file, &settings)?;
    end_written(rt, println!(rt; "ok"))
}

/// Reports that no printer is announced, and why, in a line of standard error. Returns the exit status.
fn refuse_printer(rt: &HostRuntime, file: &str, printer: Option<&str>) -> ExitStatus {
    let printed = match printer {
        Some(name) => eprintln!(rt; "printd: {file} has no printer \"{name}\""),
        None => eprintln!(rt; "printd: {file} has several printers: --printer NAME says which"),
    };
    match printed {
        Ok(()) => ExitStatus::Refused,
        Err(error) => cannot(rt, "write to standard error", error),
    }
}

/// The printer with this name or, without a name, the only printer; `None` where there is no such printer.
fn printer_of<'a>(settings: &'a Settings, printer: Option<&str>) -> Option<&'a PrinterSettings> {
    match printer {
        Some(name) => printer_named(settings, name.as_bytes()),
        None => only_printer(settings),
    }
}

/// Shows the Avahi service of a printer of a file. An error is reported, and its exit status returned.
fn announce(
    rt: &HostRuntime,
    file: &str,
    printer: Option<&str>,
    lpd: u16,
) -> Result<ExitStatus, ExitStatus> {
    let settings = settings_of(rt, file)?;
    let Some(found) = printer_of(&settings, printer) else {
        return Err(refuse_printer(rt, file, printer));
    };
    let ports = Ports {
        ipp: ipp_port(settings.uri_base.as_bytes()),
        lpd,
    };
    let mut text = Vec::new(rt.alloc());
    let made = write_service(rt.alloc(), &settings, found, ports, &mut text);
    or_no_memory_with(rt, "announce", file, made)?;
    end_written(rt, io::writer(rt).write_all(&text))
}

/// Runs `printd settings`. An error is reported, and its exit status returned.
pub(crate) fn run_settings(
    rt: &HostRuntime,
    asked: AboutSettings<'_>,
) -> Result<ExitStatus, ExitStatus> {
    match asked {
        AboutSettings::BuiltIn => show_built_in(rt),
        AboutSettings::Judge { file } => judge(rt, file),
        AboutSettings::Avahi { file, printer, lpd } => announce(rt, file, printer, lpd),
    }
}
