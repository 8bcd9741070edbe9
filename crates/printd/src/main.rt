//! The program.
//!
//! `printd serve` is the server over sockets. `printd settings` shows or judges settings. `printd replay`
//! plays a trace and writes the happenings of the server. `printd log` writes the log of a recorded day, and
//! `printd jobs` its jobs as comma-separated values.
//! `printd page` writes its queue at a moment as a page of HTML.
//! `printd check` reads the text of a plan and writes the verdict on it. `printd draw` draws a plan or the
//! day of a trace. `printd simulate` plays a day of jobs. `printd attach` is a device of a server, whose jobs
//! a printer prints.
#![tactic(auto)]

mod attaching;
mod chain;
mod error_keeping;
mod failure;
mod following;
mod input;
mod jobs;
mod judging;
mod log_output;
mod page;
mod pictures;
mod replaying;
mod serving;
mod settings;
mod simulating;
mod spooling;
mod tape;
mod zone;

use crate::attaching::run_attach;
use crate::failure::{cannot, or_no_memory, out_of_memory};
use crate::jobs::run_jobs;
use crate::judging::check;
use crate::page::run_page;
use crate::pictures::{draw, form_of};
use crate::replaying::{log, replay};
use crate::serving::run_serve;
use crate::settings::run_settings;
use crate::simulating::run_simulate;
use command_line::{Subcommand, WordsError, read_words};
use program::ExitStatus;
use std::alloc::AllocError;
use std::io::{ErrorKind, Write};
use std::process::ExitCode;
use std::{env, io};

/// Reports why the command line can't be read: a word is not UTF-8, or the system fails. Returns the exit
/// status.
fn unread(rt: &HostRuntime, error: io::Error) -> ExitStatus {
    if error.kind() != ErrorKind::InvalidData {
        return cannot(rt, "read the command line", error);
    }
    match eprintln!(rt; "error: invalid UTF-8 was detected in one or more arguments") {
        Ok(()) => ExitStatus::Refused,
        Err(_) => ExitStatus::Failed,
    }
}

/// The words of the command line.
fn words_of(rt: &HostRuntime) -> io::Result<Vec<String>> {
    let mut words = Vec::new(rt.alloc());
    for word in env::args(rt)? {
        words.push(word)?;
    }
    Ok(words)
}

/// The words as references. The only error is out of memory.
fn lent<'a>(rt: &HostRuntime, words: &'a [String]) -> Result<Vec<&'a str>, AllocError> {
    let mut texts = Vec::with_capacity(rt.alloc(), words.len())?;
    for word in words {
        texts.push(word.as_str())?;
    }
    Ok(texts)
}

/// Writes the text about words that name no subcommand, and returns the exit status. Help and the version go
/// to standard output, errors to standard error.
fn report(rt: &HostRuntime, error: &WordsError) -> ExitStatus {
    match error {
        WordsError::Help(text) => match io::writer(rt).write_all(text.as_bytes()) {
            Ok(()) => ExitStatus::Done,
            Err(error) => cannot(rt, "write to standard output", error),
        },
        WordsError::Fault(text) => match rt.stderr().write_all(text.as_bytes()) {
            Ok(()) => ExitStatus::Refused,
            Err(_) => ExitStatus::Failed,
        },
        WordsError::OutOfMemory => cannot(rt, "read the command line", out_of_memory()),
    }
}

/// Runs the subcommand, and returns its exit status. An error is reported, and its exit status returned.
fn run(rt: &HostRuntime, asked: &Subcommand<'_>) -> Result<ExitStatus, ExitStatus> {
    match asked {
        Subcommand::Serve(serving) => run_serve(rt, serving),
        Subcommand::Settings(about) => run_settings(rt, *about),
        Subcommand::Replay(replaying) => replay(rt, *replaying),
        Subcommand::Log { file } => log(rt, *file),
        Subcommand::Jobs { files } => run_jobs(rt, files),
        Subcommand::Page(paging) => run_page(rt, paging),
        Subcommand::Check { file, starts } => check(rt, *file, *starts),
        Subcommand::Draw { text, drawn } => draw(rt, *drawn, form_of(*text)),
        Subcommand::Simulate(simulating) => run_simulate(rt, simulating),
        Subcommand::Attach(attaching) => run_attach(rt, *attaching),
    }
}

/// Runs the program, and returns its exit status. Where the words can't be read or the subcommand fails, the
/// error is reported, and its exit status returned.
fn run_words(rt: &HostRuntime) -> Result<ExitStatus, ExitStatus> {
    let words = match words_of(rt) {
        Ok(words) => words,
        Err(error) => return Err(unread(rt, error)),
    };
    let texts = or_no_memory(rt, "read the command line", lent(rt, &words))?;
    match read_words(rt.alloc(), &texts) {
        Ok(asked) => run(rt, &asked),
        Err(error) => Ok(report(rt, &error)),
    }
}

fn main(rt: HostRuntime) -> ExitCode {
    let status = match run_words(&rt) {
        Ok(status) => status,
        Err(status) => status,
    };
    ExitCode::from(status.code())
}
