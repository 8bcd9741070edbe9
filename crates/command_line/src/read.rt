//! The subcommand that words ask for, as `clap` reads them.

use crate::attach_words::attach_words;
use crate::command::program;
use crate::doors::{addresses, default_address};
use crate::page_words::page_words;
use crate::simulate_words::simulate_words;
use crate::subcommand::{AboutSettings, Drawn, Log, Replaying, Serving, Spooling, Subcommand};
use crate::words::{MOST_TURNS, STANDARD_ERROR};
use crate::words_error::WordsError;
use clap::error::ErrorKind;
use clap::{ArgMatches, Error};
use std::alloc::Global;

/// The version of the program, as in the file VERSION.
pub const VERSION: &str = "1.0.0";

/// The text about words that ask for a spool and for a recording.
const SPOOLED_AND_RECORDED: &str =
    "error: the argument '--spool <DIR>' cannot be used with '--record <FILE>': the spool is a recording\n";

/// The port of LPD (RFC 1179, section 3.1).
const LPD_PORT: u16 = 515;

fn parse<'a>(alloc: Global, words: &'a [&'a str]) -> Result<ArgMatches<'a>, Error> {
    match program(alloc) {
        Ok(program) => program.try_get_matches_from(words),
        Err(error) => Err(Error::from(error)),
    }
}

/// The destination of a log, by its word.
fn log_to(word: &str) -> Log<'_> {
    if word == STANDARD_ERROR {
        Log::StandardError
    } else {
        Log::File(word)
    }
}

/// Where the queue is kept, if it survives a restart. The error is the text about invalid words, or out of memory.
fn spool_words<'a>(
    alloc: Global,
    found: &ArgMatches<'a>,
) -> Result<Option<Spooling<'a>>, WordsError> {
    let Some(directory) = found.get_str("spool") else {
        return Ok(None);
    };
    if found.get_str("record").is_some() {
        return Err(WordsError::fault(alloc, SPOOLED_AND_RECORDED));
    }
    Ok(Some(Spooling {
        directory,
        sync: found.get_flag("sync"),
        keep: found.get_flag("spool-keep"),
        reprint: found.get_flag("reprint"),
    }))
}

/// The words of `printd serve`. The error is the text about invalid words, or out of memory.
fn serve_words<'a>(alloc: Global, found: &ArgMatches<'a>) -> Result<Subcommand<'a>, WordsError> {
    let address = default_address(alloc, found)?;
    Ok(Subcommand::Serve(Serving {
        settings: found.get_str("settings"),
        ipp: addresses(alloc, found, "ipp", address)?,
        lpd: addresses(alloc, found, "lpd", address)?,
        devices: addresses(alloc, found, "devices", address)?,
        turns: found.get_one::<u64>("turns").unwrap_or(MOST_TURNS),
        log: found.get_str("log").map(log_to),
        record: found.get_str("record"),
        record_heads: found.get_flag("record-heads"),
        spool: spool_words(alloc, found)?,
    }))
}

fn replay_words<'a>(found: &ArgMatches<'a>) -> Subcommand<'a> {
    Subcommand::Replay(Replaying {
        file: found.get_str("file"),
        plans: found.get_flag("plans"),
        verify: found.get_flag("verify"),
    })
}

fn settings_words<'a>(found: &ArgMatches<'a>) -> Subcommand<'a> {
    Subcommand::Settings(match found.get_str("file") {
        None => AboutSettings::BuiltIn,
        Some(file) if found.get_flag("avahi") => AboutSettings::Avahi {
            file,
            printer: found.get_str("printer"),
            lpd: found.get_one::<u16>("lpd").unwrap_or(LPD_PORT),
        },
        Some(file) => AboutSettings::Judge { file },
    })
}

fn log_words<'a>(found: &ArgMatches<'a>) -> Subcommand<'a> {
    Subcommand::Log {
        file: found.get_str("file"),
    }
}

/// The files of `printd jobs`. The only error is out of memory.
fn jobs_words<'a>(alloc: Global, found: &ArgMatches<'a>) -> Result<Subcommand<'a>, WordsError> {
    Ok(Subcommand::Jobs {
        files: Vec::from_slice(alloc, found.get_strs("file").unwrap_or(&[]))?,
    })
}

fn check_words<'a>(found: &ArgMatches<'a>) -> Subcommand<'a> {
    Subcommand::Check {
        file: found.get_str("file"),
        starts: found.get_flag("starts"),
    }
}

fn draw_words<'a>(found: &ArgMatches<'a>) -> Subcommand<'a> {
    let file = found.get_str("file");
    Subcommand::Draw {
        text: found.get_flag("text"),
        drawn: match found.get_str("trace") {
            Some(trace) => Drawn::Day { trace },
            None => Drawn::Plan { file },
        },
    }
}

/// The error for words that `clap` takes and that name no command.
fn no_command(alloc: Global) -> WordsError {
    WordsError::fault(alloc, "error: the words name no command\n")
}

/// The subcommand of `printd attach`.
fn asked_to_attach<'a>(
    alloc: Global,
    inner: &ArgMatches<'a>,
) -> Result<Subcommand<'a>, WordsError> {
    match attach_words(inner) {
        Some(attaching) => Ok(Subcommand::Attach(attaching)),
        None => Err(no_command(alloc)),
    }
}

/// The subcommand of this name, with these words.
fn meaning<'a>(
    alloc: Global,
    name: &str,
    found: &ArgMatches<'a>,
) -> Result<Subcommand<'a>, WordsError> {
    match name {
        "serve" => serve_words(alloc, found),
        "settings" => Ok(settings_words(found)),
        "replay" => Ok(replay_words(found)),
        "log" => Ok(log_words(found)),
        "jobs" => jobs_words(alloc, found),
        "page" => page_words(alloc, found),
        "check" => Ok(check_words(found)),
        "draw" => Ok(draw_words(found)),
        "simulate" => simulate_words(alloc, found),
        "attach" => asked_to_attach(alloc, found),
        _ => Err(no_command(alloc)),
    }
}

/// The subcommand of words that `clap` takes.
fn asked<'a>(alloc: Global, found: &ArgMatches<'a>) -> Result<Subcommand<'a>, WordsError> {
    match found.subcommand() {
        Some((name, inner)) => meaning(alloc, name, inner),
        None => Err(no_command(alloc)),
    }
}

/// The text of `clap` about the words: help, the version, or an error.
fn error_text(alloc: Global, error: &Error) -> WordsError {
    if error.kind() == ErrorKind::OutOfMemory {
        return WordsError::OutOfMemory;
    }
    match format!(in alloc; "{error}") {
        Err(_) => WordsError::OutOfMemory,
        Ok(text) if error.use_stderr() => WordsError::Fault(text),
        Ok(text) => WordsError::Help(text),
    }
}

/// Returns the subcommand that the words ask for.
///
/// # Errors
///
/// The text of help or of the version, where the words ask for it; the text about the error, where they are
/// invalid; or out of memory.
pub fn read_words<'a>(alloc: Global, words: &'a [&'a str]) -> Result<Subcommand<'a>, WordsError> {
    match parse(alloc, words) {
        Ok(matches) => asked(alloc, &matches),
        Err(error) => Err(error_text(alloc, &error)),
    }
}
