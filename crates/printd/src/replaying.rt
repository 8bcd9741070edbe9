//! `printd replay` and `printd log`: a trace, played.
use crate::error_keeping::{ErrorKeepingInput, ErrorKeepingOutput};
use crate::failure::say;
use crate::input::{INPUT, open, say_of};
use crate::judging::failed;
use command_line::Replaying;
use playback::{Shows, Whole, peek, play};
use program::ExitStatus;
use replay::run_replay;
use std::io;
use std::io::{Input, Read, Write};

/// Plays a trace. An error of opening the file is reported, and its exit status returned.
pub(crate) fn replay(rt: &HostRuntime, replaying: Replaying<'_>) -> Result<ExitStatus, ExitStatus> {
    match replaying.file {
        Some(file) => Ok(replay_input(rt, file, open(rt, file)?, replaying)),
        None => Ok(replay_input(rt, INPUT, rt.reader(), replaying)),
    }
}

/// Writes the log lines of a recorded day. An error of opening the file is reported, and its exit status
/// returned.
pub(crate) fn log(rt: &HostRuntime, file: Option<&str>) -> Result<ExitStatus, ExitStatus> {
    match file {
        Some(file) => Ok(log_input(rt, file, open(rt, file)?)),
        None => Ok(log_input(rt, INPUT, rt.reader())),
    }
}

/// Plays the trace of an input with this name, and returns the exit status.
fn replay_input<R: Read + Drop>(
    rt: &HostRuntime,
    name: &str,
    reader: R,
    replaying: Replaying<'_>,
) -> ExitStatus {
    let mut input = ErrorKeepingInput::new(reader);
    let mut output = ErrorKeepingOutput::new(io::writer(rt));
    match play_any(rt, name, &mut input, &mut output, replaying) {
        Some(status) => status,
        None => failed(rt, "play the trace", name, input, output),
    }
}

/// Plays a trace of either kind, and returns the exit status; `None` where memory or a stream fails.
fn play_any<R: Read, W: Write>(
    rt: &HostRuntime,
    name: &str,
    input: &mut R,
    output: &mut W,
    replaying: Replaying<'_>,
) -> Option<ExitStatus> {
    let peeked = peek(rt.alloc(), input).ok()?;
    let recorded = peeked.recorded || replaying.verify;
    let mut whole = Whole::new(peeked.bytes, input);
    if recorded {
        play_recorded(rt, name, &mut whole, output, shows_of(replaying))
    } else {
        play_written(rt, name, &mut whole, output, replaying.plans)
    }
}

/// Writes the log lines of a recorded day from an input with this name, and returns the exit status.
fn log_input<R: Read + Drop>(rt: &HostRuntime, name: &str, reader: R) -> ExitStatus {
    let mut input = ErrorKeepingInput::new(reader);
    let mut output = ErrorKeepingOutput::new(io::writer(rt));
    match play_recorded(rt, name, &mut input, &mut output, Shows::Log) {
        Some(status) => status,
        None => failed(rt, "play the trace", name, input, output),
    }
}

/// The output for a recorded day.
fn shows_of(replaying: Replaying<'_>) -> Shows {
    if replaying.verify {
        Shows::Verdict
    } else {
        Shows::Happenings {
            texts: replaying.plans,
        }
    }
}

/// Plays a recorded day, and returns the exit status; `None` where memory or a stream fails.
fn play_recorded<R: Read, W: Write>(
    rt: &HostRuntime,
    name: &str,
    input: &mut R,
    output: &mut W,
    shows: Shows,
) -> Option<ExitStatus> {
    let played = play(rt.alloc(), name, input, output, shows);
    if played.status == ExitStatus::Failed {
        return None;
    }
    if let Some(objection) = &played.objection {
        say(rt, objection);
    }
    Some(played.status)
}

/// Plays a written trace, and returns the exit status; `None` where memory or a stream fails.
fn play_written<R: Read, W: Write>(
    rt: &HostRuntime,
    name: &str,
    input: &mut R,
    output: &mut W,
    plans: bool,
) -> Option<ExitStatus> {
    let played = run_replay(rt.alloc(), input, output, plans);
    if played.status == ExitStatus::Failed {
        return None;
    }
    if let Some(objection) = &played.objection {
        say_of(rt, name, objection);
    }
    Some(played.status)
}
