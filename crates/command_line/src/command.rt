//! The commands of the program in the form of `clap`, made from the tables in `words`.

use crate::read::VERSION;
use crate::words::{ArgumentWords, COMMANDS, CommandWords, arguments_of};
use clap::{Arg, Command};
use std::alloc::{AllocError, Global};

/// An argument with its name; an option's name has two dashes before it.
fn named<'a>(alloc: Global, words: &ArgumentWords) -> Arg<'a> {
    let argument = Arg::new(alloc, words.name)
        .help(words.help)
        .required(words.is_required);
    if words.is_positional {
        argument
    } else {
        argument.long(words.name)
    }
}

/// The argument with the name and the number of its values.
fn with_values<'a>(argument: Arg<'a>, words: &'static ArgumentWords) -> Arg<'a> {
    let most = usize::from(words.value_name.is_some());
    let least = if words.default_if_bare.is_some() {
        0
    } else {
        most
    };
    argument
        .action(words.action)
        .value_names(words.value_name.as_slice())
        .num_args(least..=most)
}

/// The argument with the limits and the defaults of its values.
fn with_defaults<'a>(argument: Arg<'a>, words: &'static ArgumentWords) -> Arg<'a> {
    argument
        .value_parser(words.parser)
        .default_values(words.default.as_slice())
        .default_missing_values(words.default_if_bare.as_slice())
}

/// An argument. The only error is out of memory.
fn argument_of<'a>(alloc: Global, words: &'static ArgumentWords) -> Result<Arg<'a>, AllocError> {
    let argument = with_defaults(with_values(named(alloc, words), words), words);
    match argument.requires_all(words.needs.as_slice()) {
        Ok(argument) => argument.conflicts_with_all(words.excludes.as_slice()),
        Err(error) => Err(error),
    }
}

/// A command with its arguments. The only error is out of memory.
fn command_of<'a>(alloc: Global, words: &CommandWords) -> Result<Command<'a>, AllocError> {
    let mut command = Command::new(alloc, words.name).about(words.about);
    for words in arguments_of(words.name) {
        let argument = argument_of(alloc, words)?;
        command = command.arg(argument)?;
    }
    Ok(command)
}

/// The program without any command.
fn bare_program<'a>(alloc: Global) -> Command<'a> {
    Command::new(alloc, "printd")
        .about("A print server that proves its plans are the best")
        .version(VERSION)
        .arg_required_else_help(true)
        .subcommand_required(true)
}

/// The program with its commands. The only error is out of memory.
pub(crate) fn program<'a>(alloc: Global) -> Result<Command<'a>, AllocError> {
    let mut program = bare_program(alloc);
    for words in COMMANDS {
        let command = command_of(alloc, words)?;
        program = program.subcommand(command)?;
    }
    Ok(program)
}
