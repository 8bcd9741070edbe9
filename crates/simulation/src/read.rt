//! The reading of a trace as a day.
ghost use Rattle.std.specs.Prelude.{IfOk};
ghost use Rattle.settings_file.specs.Settings.{MeetsLimits};

use crate::fault::{DayFault, refused};
use crate::job::{RecordedJob, RecordedPrint};
use crate::player::Player;
use base_types::{JobId, Stranded, Text};
use drawing::Page;
use plan_solver::AugmentingPaths;
use server::Engine;
use settings_file::{Settings, SettingsFault, explain, read_settings_bytes};
use std::alloc::{AllocError, Global};
use traces::{CutTrace, LineFault, next_line, split_settings};

/// The jobs of a trace and their prints.
#[derive(Drop)]
pub struct RecordedDay {
    /// The names of the devices.
    pub devices: Vec<Text>,
    /// The names of the printers.
    pub printers: Vec<Text>,
    /// The jobs, by rising id.
    pub jobs: Vec<RecordedJob>,
    /// The places of the jobs that were ready, in the order in which they became so.
    pub ready: Vec<usize>,
    /// The prints, by rising start.
    pub prints: Vec<RecordedPrint>,
    /// The jobs that waited at the end of the day without a device that can print them.
    pub stranded: Vec<Stranded>,
    /// The moment of the last event, in ms.
    pub end: u64,
}

/// The names of devices and of printers.
#[derive(Drop)]
struct Names {
    devices: Vec<Text>,
    printers: Vec<Text>,
}

/// The names of the printers of some settings, in their order.
fn printer_names(alloc: Global, settings: &Settings) -> Result<Vec<Text>, AllocError> {
    let mut names = Vec::new(alloc);
    for printer in &settings.printers {
        names.push(printer.name.copied(alloc)?)?;
    }
    Ok(names)
}

/// The names of the devices and printers of some settings.
fn names_of(alloc: Global, settings: &Settings) -> Result<Names, AllocError> {
    let devices = settings.device_names(alloc)?;
    let printers = printer_names(alloc, settings)?;
    Ok(Names { devices, printers })
}

/// A page that begins with a file's name.
fn of_file(alloc: Global, file: &str) -> Page {
    Page::new(alloc).put(file).put(": ")
}

/// The fault of the settings of a file.
fn settings_refused(alloc: Global, file: &str, settings: &[u8], fault: &SettingsFault) -> DayFault {
    if matches!(fault, SettingsFault::OutOfMemory) {
        return DayFault::OutOfMemory;
    }
    match explain(alloc, file, settings) {
        Ok(Some(sentence)) => DayFault::Refused { sentence },
        Ok(None) => refused(of_file(alloc, file).put("the settings are refused")),
        Err(_) => DayFault::OutOfMemory,
    }
}

/// The fault of the line of a number.
fn line_refused(alloc: Global, file: &str, number: usize, fault: LineFault) -> DayFault {
    let sentence = of_file(alloc, file).put("line ").put_shown(number);
    refused(sentence.put(": ").put_shown(fault))
}

/// Plays the lines of a trace with a server.
fn play_lines(
    alloc: Global,
    file: &str,
    player: &mut Player<'_>,
    names: &[Text],
    trace: CutTrace<'_>,
) -> Result<(), DayFault> {
    let mut rest = trace.lines;
    let mut number = trace.stop;
    while let Some(cut) = next_line(rest) {
        number = number.saturating_add(1);
        if let Err(fault) = player.act(cut.line, names)? {
            return Err(line_refused(alloc, file, number, fault));
        }
        rest = cut.later;
    }
    Ok(())
}

/// The settings of a trace.
fn settings_of(alloc: Global, file: &str, text: &[u8]) -> Result<Settings, DayFault>
    ensures { IfOk result MeetsLimits }
{
    match read_settings_bytes(alloc, text) {
        Ok(settings) => Ok(settings),
        Err(fault) => Err(settings_refused(alloc, file, text, &fault)),
    }
}

/// The day of a player's record, where devices and printers have these names. The record is empty then.
fn day_of(player: &mut Player<'_>, names: Names) -> RecordedDay {
    let recorder = player.take_recorder();
    RecordedDay {
        devices: names.devices,
        printers: names.printers,
        jobs: recorder.jobs,
        ready: recorder.ready,
        prints: recorder.prints,
        stranded: recorder.stranded,
        end: player.end(),
    }
}

/// The day of a trace, played by a server that has started.
fn play_trace(
    alloc: Global,
    file: &str,
    engine: &mut Engine<AugmentingPaths>,
    trace: CutTrace<'_>,
    names: Names,
) -> Result<RecordedDay, DayFault> {
    let mut player = Player::new(alloc, engine);
    play_lines(alloc, file, &mut player, &names.devices, trace)?;
    Ok(day_of(&mut player, names))
}

/// The day of a trace, played by a server with the trace's settings.
fn play_day(
    alloc: Global,
    file: &str,
    trace: CutTrace<'_>,
    settings: Settings,
    first: JobId,
) -> Result<RecordedDay, DayFault>
    requires { MeetsLimits settings }
{
    let names = names_of(alloc, &settings)?;
    play_settings(alloc, file, trace, settings, names, first)
}

/// The day of a trace, played by a server whose settings have these names.
fn play_settings(
    alloc: Global,
    file: &str,
    trace: CutTrace<'_>,
    settings: Settings,
    names: Names,
    first: JobId,
) -> Result<RecordedDay, DayFault>
    requires { MeetsLimits settings }
{
    let planner = AugmentingPaths::new(alloc);
    let mut engine = Engine::starting_at(alloc, settings, planner, first)?;
    play_trace(alloc, file, &mut engine, trace, names)
}

/// The fault that no line ends the settings.
fn no_settings(alloc: Global, file: &str) -> DayFault {
    let sentence = of_file(alloc, file);
    refused(sentence.put("no line after the settings is \".\" alone"))
}

/// Reads the day of a trace, whose text is that of a file of this name (`docs/TRACES.md`). `first` is the id of its
/// first job.
///
/// # Errors
///
/// The text isn't a trace, or a line of it is bad: a sentence that begins with the name states where. Or memory
/// was refused.
pub fn read_day(
    alloc: Global,
    file: &str,
    text: &[u8],
    first: JobId,
) -> Result<RecordedDay, DayFault> {
    let Some(trace) = split_settings(text) else {
        return Err(no_settings(alloc, file));
    };
    let settings = settings_of(alloc, file, trace.settings)?;
    play_day(alloc, file, trace, settings, first)
}
