//! `printd check`: the verdict on the text of a plan.
use crate::error_keeping::{ErrorKeepingInput, ErrorKeepingOutput};
use crate::failure::{cannot, cannot_with, out_of_memory};
use crate::input::{INPUT, open, say_of, spoken};
use plan_audit::{Audit, run_check};
use program::ExitStatus;
use std::io;
use std::io::{Input, Read, Write};

/// Judges the text of a plan. An error of opening the file is reported, and its exit status returned.
pub(crate) fn check(
    rt: &HostRuntime,
    file: Option<&str>,
    starts: bool,
) -> Result<ExitStatus, ExitStatus> {
    match file {
        Some(file) => Ok(check_input(rt, file, open(rt, file)?, starts)),
        None => Ok(check_input(rt, INPUT, rt.reader(), starts)),
    }
}

/// Judges the text of a plan from an input with this name, and returns the exit status.
fn check_input<R: Read + Drop>(
    rt: &HostRuntime,
    name: &str,
    reader: R,
    starts: bool,
) -> ExitStatus {
    let mut input = ErrorKeepingInput::new(reader);
    let mut output = ErrorKeepingOutput::new(io::writer(rt));
    let audit = run_check(rt.alloc(), &mut input, &mut output, starts);
    if audit.status == ExitStatus::Failed {
        return failed(rt, "judge the plan", name, input, output);
    }
    report_objection(rt, name, audit)
}

/// Reports the objection to a plan from an input with this name, and returns the exit status.
pub(crate) fn report_objection(rt: &HostRuntime, name: &str, audit: Audit) -> ExitStatus {
    if let Some(objection) = &audit.objection {
        say_of(rt, name, objection);
    }
    audit.status
}

/// Reports the failure: of the output, of the input with this name, or of memory; and returns the exit status.
pub(crate) fn failed<R: Read + Drop, W: Write + Drop>(
    rt: &HostRuntime,
    what: &str,
    name: &str,
    input: ErrorKeepingInput<R>,
    output: ErrorKeepingOutput<W>,
) -> ExitStatus {
    if let Some(error) = output.into_error() {
        return cannot(rt, "write to standard output", error);
    }
    let name = spoken(name);
    if input.takes_too_many_reads() {
        let _printed = eprintln!(rt;
            "printd: cannot read {name}: it takes more than 1,048,576 reads"
        );
        return ExitStatus::Failed;
    }
    match input.into_error() {
        Some(error) => cannot_with(rt, "read", name, error),
        None => cannot(rt, what, out_of_memory()),
    }
}
