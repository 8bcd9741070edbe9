//! The run of a trace.
ghost use Rattle.std.specs.Prelude.{◌≡◌, ◌≤◌, ◌+◌, ◌++◌, [], Ok, Some, IfOk, IfErr, IfSome, IsNone, OnErr, suc, length, codes};
ghost use Rattle.std.specs.Option.{ForSome};
ghost use Rattle.std.specs.Str.{IsUtf8};
ghost use Rattle.std.specs.Fmt.{decimal};
ghost use Rattle.base_types.specs.declared.limits.TheConstants.Limits.{INPUT_BYTES};
ghost use Rattle.settings_file.specs.Settings.{ServerSettings};
ghost use Rattle.settings_file.specs.Fault.{Fault, fault_of};
ghost use Rattle.settings_file.specs.Reading.{settings_of, IsFaultOf};
ghost use Rattle.program.specs.declared.exit_status.ExitStatus.TheVariants as Ends;
ghost use Rattle.program.specs.Output.{refused_as};
ghost use Rattle.program.specs.RefusedSettings.{settings_refused};
ghost use Rattle.traces.specs.Lines.{lines_of};
ghost use Rattle.replay.specs.Acting.{IsReady, IsStart, PlaysAll, PlaysFirst};
ghost use Rattle.replay.specs.Replay.{SettingsGive, SettingsLeave, TraceGives, TraceLeaves, InputGives, InputLeaves, Replays};

use crate::objection::{Objection, about_settings};
use crate::play::Play;
use base_types::Limits;
use program::{ExitStatus, InputFault, read_whole, refusal_line, write_prefix};
use settings_file::{SettingsFault, read_settings_bytes};
use std::alloc::{AllocError, Global};
use std::io::{Read, Write};
use traces::{LineFault, next_line, split_settings};

/// The end of a replay.
#[derive(Drop)]
pub struct Replayed {
    pub status: ExitStatus,
    /// Why the trace is refused, if the status states that it is.
    pub objection: Option<Objection>,
}

/// Reads a trace to its end, runs it, and writes the text of its lines. Returns the exit status, and the
/// reason if the trace is refused.
///
/// The text has, in order, the replies, the cancels, the plans, with their own texts if `texts` is true, and
/// the jobs that start; or why the settings, a line or the size is refused. The status states that all is done,
/// that something is refused, or that memory or a stream failed. In the last case a prefix of the text of some
/// of the lines is written.
pub fn run_replay<R: Read, W: Write>(
    alloc: Global,
    reader: &mut R,
    writer: &mut W,
    texts: bool,
) -> Replayed
    ensures { Replays texts (R.remaining reader.old) (R.remaining reader.new) (W.contents writer.old) (W.contents writer.new) result.status }
{
    let mut objection = None;
    let status = play_input(alloc, reader, writer, texts, &mut objection);
    Replayed { status, objection }
}

/// Reads a trace to its end, runs it, and writes the text of its lines. Returns the exit status.
fn play_input<R: Read, W: Write>(
    alloc: Global,
    reader: &mut R,
    writer: &mut W,
    texts: bool,
    objection: &mut Option<Objection>,
) -> ExitStatus
    ensures { Replays texts (R.remaining reader.old) (R.remaining reader.new) (W.contents writer.old) (W.contents writer.new) result }
{
    let mut output = Vec::new(alloc);
    let due = answer_input(alloc, reader, texts, &mut output, objection);
    if write_prefix(writer, &output) < output.len() {
        return ExitStatus::Failed;
    }
    match due {
        Some(status) => status,
        None => ExitStatus::Failed,
    }
}

/// Appends the text of an input. Returns the status, or none if memory or the stream fails.
fn answer_input<R: Read>(
    alloc: Global,
    reader: &mut R,
    texts: bool,
    output: &mut Vec<u8>,
    objection: &mut Option<Objection>,
) -> Option<ExitStatus>
    requires { output.old.items ≡ [] }
    ensures some { IfSome result (λ status. InputGives texts (R.remaining reader.old) (R.remaining reader.new) (record { text = output.new.items; status = status })) }
    ensures none { IsNone result → InputLeaves texts (R.remaining reader.old) (R.remaining reader.new) output.new.items }
{
    match read_whole(alloc, reader, Limits::INPUT_BYTES, Limits::INPUT_READS) {
        Ok(trace) => replay(alloc, &trace, texts, output, objection).ok(),
        Err(InputFault::Size) => {
            *objection = Some(Objection::Size);
            refuse(output, b"refused size\n").ok()
        }
        Err(InputFault::Stream | InputFault::OutOfMemory) => None,
    }
}

/// Appends the line of a refusal. Returns its status.
fn refuse(output: &mut Vec<u8>, line: &[u8]) -> Result<ExitStatus, AllocError>
    ensures ok { IfOk result (λ status. (status ≡ Ends.Refused) × (output.new.items ≡ output.old.items ++ line.now)) }
    ensures err { OnErr result (output.new.items ≡ output.old.items) }
{
    output.extend_from_slice(line)?;
    Ok(ExitStatus::Refused)
}

/// Runs a trace and appends its text. Returns the status.
fn replay(
    alloc: Global,
    trace: &[u8],
    texts: bool,
    output: &mut Vec<u8>,
    objection: &mut Option<Objection>,
) -> Result<ExitStatus, AllocError>
    requires empty { output.old.items ≡ [] }
    requires short { length trace.now ≤ INPUT_BYTES }
    ensures ok { IfOk result (λ status. TraceGives texts trace.now (record { text = output.new.items; status = status })) }
    ensures err { OnErr result (TraceLeaves texts trace.now output.new.items) }
{
    let Some(cut) = split_settings(trace) else {
        *objection = Some(Objection::NoPoint);
        return refuse_settings(alloc, &SettingsFault::NotToml, output);
    };
    run_lines(
        alloc,
        cut.settings,
        cut.lines,
        cut.stop,
        texts,
        output,
        objection,
    )
}

/// Runs the lines after the settings and appends their text. Returns the status.
fn run_lines(
    alloc: Global,
    settings: &[u8],
    lines: &[u8],
    before: usize,
    texts: bool,
    output: &mut Vec<u8>,
    objection: &mut Option<Objection>,
) -> Result<ExitStatus, AllocError>
    requires empty { output.old.items ≡ [] }
    requires short { before + length lines.now ≤ INPUT_BYTES }
    ensures ok { IfOk result (λ status. SettingsGive texts settings.now lines.now before (record { text = output.new.items; status = status })) }
    ensures err { OnErr result (SettingsLeave texts settings.now lines.now before output.new.items) }
{
    match read_start(alloc, settings, texts) {
        Ok(mut play) => play_lines(alloc, &mut play, lines, before, output, objection),
        Err(fault) => {
            *objection = Some(about_settings(alloc, settings));
            refuse_settings(alloc, &fault, output)
        }
    }
}

/// Acts on lines up to a bad line, and appends their text. `before` lines are before the first of them.
/// Returns the status.
fn play_lines(
    alloc: Global,
    play: &mut Play,
    lines: &[u8],
    before: usize,
    output: &mut Vec<u8>,
    objection: &mut Option<Objection>,
) -> Result<ExitStatus, AllocError>
    requires ready { IsReady play.old }
    requires short { before + length lines.now ≤ INPUT_BYTES }
    ensures ok { IfOk result (λ status. PlaysAll play.old (suc before) (lines_of lines.now) output.old.items (record { text = output.new.items; status = status })) }
    ensures err { OnErr result (PlaysFirst play.old (suc before) (lines_of lines.now) output.old.items output.new.items) }
{
    let mut rest = lines;
    let mut number = before;
    while let Some(cut) = next_line(rest) {
        number += 1;
        if let Some(fault) = play.act(cut.line, output)? {
            return refuse_line(alloc, number, fault, output, objection);
        }
        rest = cut.later;
    }
    Ok(ExitStatus::Done)
}

/// Appends the line of refused settings. Returns its status. The only error is out of memory, which may be
/// the fault itself.
fn refuse_settings(
    alloc: Global,
    fault: &SettingsFault,
    output: &mut Vec<u8>,
) -> Result<ExitStatus, AllocError>
    ensures ok { IfOk result (λ status. (status ≡ Ends.Refused) × (named : Fault) × (fault_of fault.now ≡ Some named) × (output.new.items ≡ output.old.items ++ (settings_refused named).text)) }
    ensures err { OnErr result (output.new.items ≡ output.old.items) }
{
    let line = refusal_line(alloc, fault)?;
    refuse(output, &line)
}

/// Creates a server that starts with the settings of these bytes.
fn read_start(alloc: Global, settings: &[u8], texts: bool) -> Result<Play, SettingsFault>
    ensures ok { IfOk result (λ play. IsUtf8 settings.now × (read : ServerSettings) × (settings_of settings.now ≡ Ok read) × IsStart texts read play) }
    ensures err { IfErr result (λ e. ForSome (fault_of e) (IsFaultOf settings.now)) }
{
    let settings = read_settings_bytes(alloc, settings)?;
    Play::new(alloc, settings, texts).map_err(|_| SettingsFault::OutOfMemory)
}

/// Appends the line of refused bytes that aren't a line of a trace, and records their fault. Returns the
/// status.
fn refuse_line(
    alloc: Global,
    number: usize,
    fault: LineFault,
    output: &mut Vec<u8>,
    objection: &mut Option<Objection>,
) -> Result<ExitStatus, AllocError>
    ensures ok { IfOk result (λ status. (status ≡ Ends.Refused) × (output.new.items ≡ output.old.items ++ (refused_as (codes "line " ++ decimal number)).text)) }
    ensures err { OnErr result (output.new.items ≡ output.old.items) }
{
    let line = format!(in alloc; "refused line {number}\n")?;
    *objection = Some(Objection::Line { number, fault });
    refuse(output, line.as_bytes())
}
