//! `printd draw`.

use crate::error_keeping::{ErrorKeepingInput, ErrorKeepingOutput};
use crate::failure::{cannot, out_of_memory, say, write_text};
use crate::input::{INPUT, open};
use crate::judging::{failed, report_objection};
use crate::settings::read_file;
use base_types::JobId;
use command_line::Drawn;
use drawing::{Form, run_draw};
use playback::{Written, as_written};
use program::ExitStatus;
use simulation::{DayFault, draw_day};
use std::io;
use std::io::{Input, Read};

/// The form of a picture: for a terminal if `text` is set, else SVG.
pub(crate) fn form_of(text: bool) -> Form {
    if text { Form::Text } else { Form::Svg }
}

/// Draws the plan of a text from an input with this name, and returns the exit status.
fn draw_input<R: Read + Drop>(rt: &HostRuntime, name: &str, reader: R, form: Form) -> ExitStatus {
    let mut input = ErrorKeepingInput::new(reader);
    let mut output = ErrorKeepingOutput::new(io::writer(rt));
    let audit = run_draw(rt.alloc(), &mut input, &mut output, form);
    if audit.status == ExitStatus::Failed {
        return failed(rt, "draw the plan", name, input, output);
    }
    report_objection(rt, name, audit)
}

/// Draws the plan of a text. An error of opening the file is reported, and its exit status returned.
fn draw_plan(rt: &HostRuntime, file: Option<&str>, form: Form) -> Result<ExitStatus, ExitStatus> {
    match file {
        Some(file) => Ok(draw_input(rt, file, open(rt, file)?, form)),
        None => Ok(draw_input(rt, INPUT, rt.reader(), form)),
    }
}

/// Reports why a trace has no day, and returns the exit status.
fn refuse_day(rt: &HostRuntime, what: &str, fault: &DayFault) -> ExitStatus {
    match fault {
        DayFault::Refused { sentence } => {
            say(rt, sentence);
            ExitStatus::Refused
        }
        DayFault::OutOfMemory => cannot(rt, what, out_of_memory()),
    }
}

/// What a day gave. A fault is reported, and its exit status returned.
pub(crate) fn or_refused<T>(
    rt: &HostRuntime,
    what: &str,
    played: Result<T, DayFault>,
) -> Result<T, ExitStatus> {
    match played {
        Ok(value) => Ok(value),
        Err(fault) => Err(refuse_day(rt, what, &fault)),
    }
}

/// A trace in the written form, and the id of its first job.
#[derive(Drop)]
pub(crate) struct WrittenTrace {
    pub(crate) text: Vec<u8>,
    pub(crate) first: JobId,
}

/// The trace of a file in the written form: a recorded day is converted. An error is reported, and its exit
/// status returned.
pub(crate) fn written_trace(
    rt: &HostRuntime,
    file: &str,
    text: Vec<u8>,
) -> Result<WrittenTrace, ExitStatus> {
    match as_written(rt.alloc(), &text) {
        Ok(Written::Already) => Ok(WrittenTrace {
            text,
            first: JobId::new(JobId::FIRST).unwrap(),
        }),
        Ok(Written::Made { text, first }) => Ok(WrittenTrace { text, first }),
        Ok(Written::Bad(line)) => {
            let _printed = eprintln!(rt;
                "printd: {file}: line {line}: this is no line of a recorded day"
            );
            Err(ExitStatus::Refused)
        }
        Err(_) => Err(cannot(rt, "read the trace", out_of_memory())),
    }
}

/// Draws the day of a trace. An error is reported, and its exit status returned.
fn draw_trace(rt: &HostRuntime, file: &str, form: Form) -> Result<ExitStatus, ExitStatus> {
    let trace = written_trace(rt, file, read_file(rt, file)?)?;
    let drawn = draw_day(rt.alloc(), file, &trace.text, trace.first, form);
    let picture = or_refused(rt, "draw the day", drawn)?;
    write_text(rt, &picture)
}

/// Draws a plan or a day. An error is reported, and its exit status returned.
pub(crate) fn draw(
    rt: &HostRuntime,
    drawn: Drawn<'_>,
    form: Form,
) -> Result<ExitStatus, ExitStatus> {
    match drawn {
        Drawn::Plan { file } => draw_plan(rt, file, form),
        Drawn::Day { trace } => draw_trace(rt, trace, form),
    }
}
