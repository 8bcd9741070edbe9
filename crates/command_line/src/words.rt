//! Tables of the program's commands and their arguments. `command` makes the commands of `clap` from them.

use clap::ArgAction;
use clap::builder::ValueParser;

/// The word for standard error in the place of a file.
pub(crate) const STANDARD_ERROR: &str = "-";

/// A number of turns without practical end: at ten a second, three thousand years.
pub(crate) const MOST_TURNS: u64 = 1_000_000_000_000;

/// The names of the policies with which a planned day can be compared.
const POLICIES: &[&str] = &[
    "round-robin",
    "first-free",
    "shortest-queue",
    "ends-first",
    "shortest-first",
];

/// A command's name and its help.
pub(crate) struct CommandWords {
    pub(crate) name: &'static str,
    /// The text of help about the command.
    pub(crate) about: &'static str,
}

/// An argument of a command.
pub(crate) struct ArgumentWords {
    pub(crate) name: &'static str,
    /// Whether the argument is found by its place, and not by its name after two dashes.
    pub(crate) is_positional: bool,
    /// Whether the argument is a flag, has one value, or may be given several times.
    pub(crate) action: ArgAction,
    /// The name of the value in help. A flag has none.
    pub(crate) value_name: Option<&'static str>,
    /// The values that the argument takes.
    pub(crate) parser: ValueParser<'static>,
    /// The value of an argument that is not given.
    pub(crate) default: Option<&'static str>,
    /// The value of an argument that is given without a value. Without this default, `clap` refuses such an
    /// argument.
    pub(crate) default_if_bare: Option<&'static str>,
    pub(crate) is_required: bool,
    /// The argument without which `clap` refuses this argument.
    pub(crate) needs: Option<&'static str>,
    /// The argument together with which `clap` refuses this argument.
    pub(crate) excludes: Option<&'static str>,
    /// The text of help about the argument.
    pub(crate) help: &'static str,
}

/// A flag.
const FLAG: ArgumentWords = ArgumentWords {
    name: "",
    is_positional: false,
    action: ArgAction::SetTrue,
    value_name: None,
    parser: ValueParser::Bool,
    default: None,
    default_if_bare: None,
    is_required: false,
    needs: None,
    excludes: None,
    help: "",
};

/// An option with one value, which may be any text.
const TEXT: ArgumentWords = ArgumentWords {
    action: ArgAction::Set,
    parser: ValueParser::String,
    ..FLAG
};

/// An option with the name of a file.
const FILE: ArgumentWords = ArgumentWords {
    value_name: Some("FILE"),
    ..TEXT
};

/// The file that a command reads, found by its place.
const FILE_READ: ArgumentWords = ArgumentWords {
    name: "file",
    is_positional: true,
    ..FILE
};

/// The trace that a command reads.
const TRACE_READ: ArgumentWords = ArgumentWords {
    help: "The trace; without it, that of standard input",
    ..FILE_READ
};

/// The text of a plan that a command reads.
const PLAN_READ: ArgumentWords = ArgumentWords {
    help: "The text of the plan; without it, that of standard input",
    ..FILE_READ
};

/// An option with a number of 32 bits.
const NUMBER: ArgumentWords = ArgumentWords {
    value_name: Some("N"),
    parser: ValueParser::Signed(0, u32::MAX as i64),
    ..TEXT
};

/// An option with a number of 64 bits.
const LONG_NUMBER: ArgumentWords = ArgumentWords {
    value_name: Some("N"),
    parser: ValueParser::Unsigned(0, u64::MAX),
    ..TEXT
};

/// An option with the addresses of a door.
const DOOR: ArgumentWords = ArgumentWords {
    action: ArgAction::Append,
    value_name: Some("[ADDRESS:]PORT"),
    ..TEXT
};

const SERVE: &[ArgumentWords] = &[
    ArgumentWords {
        name: "settings",
        help: "The settings: devices, printers, operators; without it, those of `printd settings`",
        ..FILE
    },
    ArgumentWords {
        name: "ipp",
        default: Some("8631"),
        help: "Where IPP clients come in; port 0 is any that is free",
        ..DOOR
    },
    ArgumentWords {
        name: "lpd",
        default: Some("8515"),
        help: "Where LPD clients come in",
        ..DOOR
    },
    ArgumentWords {
        name: "devices",
        default: Some("8632"),
        help: "Where devices come in",
        ..DOOR
    },
    ArgumentWords {
        name: "address",
        value_name: Some("ADDRESS"),
        default: Some("127.0.0.1"),
        help: "The address of each door that names none",
        ..TEXT
    },
    ArgumentWords {
        name: "turns",
        parser: ValueParser::Unsigned(1, MOST_TURNS),
        help: "End after so many rounds of the loop, for a test; without it, serve until told to stop",
        ..LONG_NUMBER
    },
    ArgumentWords {
        name: "log",
        default_if_bare: Some(STANDARD_ERROR),
        help: "Append what happens to a file; without its name, or with -, write it to standard error",
        ..FILE
    },
    ArgumentWords {
        name: "record",
        help: "Record the day to this file, which is created, or if it exists to the next: day.1.trace after day.trace",
        ..FILE
    },
    ArgumentWords {
        name: "record-heads",
        needs: Some("record"),
        help: "Record each octet of a document as a zero",
        ..FLAG
    },
    ArgumentWords {
        name: "spool",
        value_name: Some("DIR"),
        help: "Keep the queue in this directory, which is made, and go on with the jobs that it has",
        ..TEXT
    },
    ArgumentWords {
        name: "sync",
        needs: Some("spool"),
        help: "Answer nothing before it is on the disk, so that the queue survives a power failure, too",
        ..FLAG
    },
    ArgumentWords {
        name: "spool-keep",
        needs: Some("spool"),
        help: "Keep the files of past days in the directory, with the documents that they hold",
        ..FLAG
    },
    ArgumentWords {
        name: "reprint",
        needs: Some("spool"),
        help: "Print the jobs again that devices had in hand when the server ended: they may come out twice",
        ..FLAG
    },
];

const SETTINGS: &[ArgumentWords] = &[
    ArgumentWords {
        help: "The settings: devices, printers, operators",
        ..FILE_READ
    },
    ArgumentWords {
        name: "avahi",
        needs: Some("file"),
        help: "Print the service file with which Avahi announces a printer of the file",
        ..FLAG
    },
    ArgumentWords {
        name: "printer",
        value_name: Some("NAME"),
        needs: Some("avahi"),
        help: "Which printer, where the file has several",
        ..TEXT
    },
    ArgumentWords {
        name: "lpd",
        value_name: Some("PORT"),
        parser: ValueParser::Signed(0, u16::MAX as i64),
        needs: Some("avahi"),
        help: "Where LPD clients come in, where it isn't 515",
        ..NUMBER
    },
];

const REPLAY: &[ArgumentWords] = &[
    TRACE_READ,
    ArgumentWords {
        name: "plans",
        help: "Write the text of each plan too, as `check` reads it",
        ..FLAG
    },
    ArgumentWords {
        name: "verify",
        help: "Of a recorded day, write only whether all is the same: same, or where it first differs",
        ..FLAG
    },
];

const LOG: &[ArgumentWords] = &[TRACE_READ];

const JOBS: &[ArgumentWords] = &[ArgumentWords {
    action: ArgAction::Append,
    is_required: true,
    help: "The recorded day; several files, as the *.trace of a spool, are played in their order",
    ..FILE_READ
}];

const PAGE: &[ArgumentWords] = &[
    ArgumentWords {
        action: ArgAction::Append,
        help: "The recorded day, or its files in order; without one, that of standard input",
        ..FILE_READ
    },
    ArgumentWords {
        name: "follow",
        value_name: Some("FILE-OR-DIR"),
        needs: Some("to"),
        excludes: Some("file"),
        help: "Follow a recording or a spool as it grows, and write the page anew as it changes, once a second at most",
        ..TEXT
    },
    ArgumentWords {
        name: "at",
        value_name: Some("TIME"),
        excludes: Some("follow"),
        help: "When: in ms since the start, a clock time, or a date with a time; without it, at the end of the day",
        ..TEXT
    },
    ArgumentWords {
        name: "to",
        help: "The file of the page, in place of standard output",
        ..FILE
    },
    ArgumentWords {
        name: "metrics",
        help: "Write metrics for Prometheus to this file, too: NAME.prom in the folder of node_exporter's textfile collector",
        ..FILE
    },
    ArgumentWords {
        name: "names",
        help: "Show the owners and the titles of jobs",
        ..FLAG
    },
    ArgumentWords {
        name: "zone",
        value_name: Some("ZONE"),
        default: Some("UTC"),
        help: "The zone of clock times, as Europe/Berlin or +02:00",
        ..TEXT
    },
];

const CHECK: &[ArgumentWords] = &[
    PLAN_READ,
    ArgumentWords {
        name: "starts",
        help: "With a yes, write when each job starts and ends",
        ..FLAG
    },
];

const DRAW: &[ArgumentWords] = &[
    PLAN_READ,
    ArgumentWords {
        name: "text",
        help: "Draw it for a terminal of 80 columns",
        ..FLAG
    },
    ArgumentWords {
        name: "trace",
        excludes: Some("file"),
        help: "Draw the day of this trace: which device printed what, and when",
        ..FILE
    },
];

const SIMULATE: &[ArgumentWords] = &[
    ArgumentWords {
        name: "settings",
        action: ArgAction::Append,
        is_required: true,
        help: "The settings: devices and printers; several are compared",
        ..FILE
    },
    ArgumentWords {
        name: "jobs",
        action: ArgAction::Append,
        is_required: true,
        help: "The jobs of a day, as comma-separated values or a trace; of several days the middle one is shown",
        ..FILE
    },
    ArgumentWords {
        name: "load",
        value_name: Some("FACTOR"),
        default: Some("1"),
        help: "How many times as fast the jobs come",
        ..TEXT
    },
    ArgumentWords {
        name: "noise",
        value_name: Some("PERCENT"),
        parser: ValueParser::Signed(0, 90),
        default: Some("0"),
        help: "By how much devices miss their estimates at most, up to 90",
        ..NUMBER
    },
    ArgumentWords {
        name: "seed",
        default: Some("1"),
        help: "The seed of chance, for --noise",
        ..LONG_NUMBER
    },
    ArgumentWords {
        name: "without",
        action: ArgAction::Append,
        value_name: Some("NAME"),
        help: "A device that is away all day",
        ..TEXT
    },
    ArgumentWords {
        name: "with",
        action: ArgAction::Append,
        value_name: Some("NAME=LIKE"),
        help: "One device more, of this name, like one of the settings; or \"NAME: rate_one=1000 setup=2000\"",
        ..TEXT
    },
    ArgumentWords {
        name: "each",
        excludes: Some("draw"),
        help: "Play each --with and each --without by itself, beside the devices as they are",
        ..FLAG
    },
    ArgumentWords {
        name: "policy",
        action: ArgAction::Append,
        value_name: Some("POLICY"),
        parser: ValueParser::Names(POLICIES),
        help: "A policy of the table; without it, all of them",
        ..TEXT
    },
    ArgumentWords {
        name: "csv",
        excludes: Some("draw"),
        help: "Write the figures of each day for a spreadsheet, in ms",
        ..FLAG
    },
    ArgumentWords {
        name: "draw",
        value_name: Some("POLICY"),
        parser: ValueParser::Names(POLICIES),
        default_if_bare: Some("round-robin"),
        excludes: Some("policy"),
        help: "Draw the planned day and that of a policy",
        ..TEXT
    },
    ArgumentWords {
        name: "text",
        needs: Some("draw"),
        help: "Draw for a terminal of 80 columns, in place of SVG",
        ..FLAG
    },
];

const ATTACH: &[ArgumentWords] = &[
    ArgumentWords {
        name: "name",
        value_name: Some("NAME"),
        is_required: true,
        help: "The device of the settings that the printer is",
        ..TEXT
    },
    ArgumentWords {
        name: "server",
        value_name: Some("HOST:PORT"),
        default: Some("127.0.0.1:8632"),
        help: "Where the server's devices come in",
        ..TEXT
    },
    ArgumentWords {
        name: "to",
        value_name: Some("ADDRESS"),
        is_required: true,
        help: "What prints: file:DIR, socket://HOST[:PORT], lpd://HOST[:PORT]/QUEUE or ipp://HOST[:PORT]/PATH",
        ..TEXT
    },
    ArgumentWords {
        name: "format",
        value_name: Some("MIME"),
        help: "The format of every document; by default, found by its first bytes",
        ..TEXT
    },
    ArgumentWords {
        name: "ms-per-page",
        default: Some("0"),
        help: "How long a folder takes for a page, in ms",
        ..NUMBER
    },
    ArgumentWords {
        name: "linger",
        value_name: Some("SECONDS"),
        default: Some("30"),
        help: "How long a printer that has taken all may be silent before the job is done",
        ..NUMBER
    },
    ArgumentWords {
        name: "timeout",
        value_name: Some("SECONDS"),
        default: Some("300"),
        help: "How long a job may make no progress at the printer before it fails",
        ..NUMBER
    },
    ArgumentWords {
        name: "pjl",
        help: "Wrap each job in PJL, and read reports of its pages and its end",
        ..FLAG
    },
    ArgumentWords {
        name: "turns",
        help: "End after so many rounds of the loop, for a test; without it, run until told to stop",
        ..LONG_NUMBER
    },
    ArgumentWords {
        name: "log",
        help: "Write connections, jobs and faults to standard error",
        ..FLAG
    },
    ArgumentWords {
        name: "measure",
        help: "Write the printer's rates and its setup for the settings, after each job",
        ..FLAG
    },
    ArgumentWords {
        name: "until-closed",
        help: "Give the job in hand up and end once standard input, a pipe, is closed",
        ..FLAG
    },
];

/// The commands, in the order of help.
pub(crate) const COMMANDS: &[CommandWords] = &[
    CommandWords {
        name: "serve",
        about: "Serve print clients and devices over the network",
    },
    CommandWords {
        name: "settings",
        about: "Print the built-in settings; or judge those of a file, as `serve` does: ok, or their first fault",
    },
    CommandWords {
        name: "replay",
        about: "Play a trace, and write what the server does",
    },
    CommandWords {
        name: "log",
        about: "Write the log's lines of a recorded day",
    },
    CommandWords {
        name: "jobs",
        about: "Print the jobs of a recorded day as comma-separated values",
    },
    CommandWords {
        name: "page",
        about: "Write a page of HTML with the queue of a recorded day, at its end or at a moment",
    },
    CommandWords {
        name: "check",
        about: "Judge the text of a plan: yes, or its first fault",
    },
    CommandWords {
        name: "draw",
        about: "Draw the plan of a text, or the day of a trace, as SVG",
    },
    CommandWords {
        name: "simulate",
        about: "Play a day of jobs as the server plans it, and as simpler rules would print it",
    },
    CommandWords {
        name: "attach",
        about: "Be a device of a server, and have a printer print what it is given",
    },
];

/// The arguments of `printd serve`, in the order of help.
fn serve_arguments() -> &'static [ArgumentWords] {
    SERVE
}

/// The arguments of `printd settings`, in the order of help.
fn settings_arguments() -> &'static [ArgumentWords] {
    SETTINGS
}

/// The arguments of `printd replay`, in the order of help.
fn replay_arguments() -> &'static [ArgumentWords] {
    REPLAY
}

/// The arguments of `printd log`, in the order of help.
fn log_arguments() -> &'static [ArgumentWords] {
    LOG
}

/// The arguments of `printd jobs`, in the order of help.
fn jobs_arguments() -> &'static [ArgumentWords] {
    JOBS
}

/// The arguments of `printd page`, in the order of help.
fn page_arguments() -> &'static [ArgumentWords] {
    PAGE
}

/// The arguments of `printd check`, in the order of help.
fn check_arguments() -> &'static [ArgumentWords] {
    CHECK
}

/// The arguments of `printd draw`, in the order of help.
fn draw_arguments() -> &'static [ArgumentWords] {
    DRAW
}

/// The arguments of `printd simulate`, in the order of help.
fn simulate_arguments() -> &'static [ArgumentWords] {
    SIMULATE
}

/// The arguments of `printd attach`, in the order of help.
fn attach_arguments() -> &'static [ArgumentWords] {
    ATTACH
}

/// The arguments of the command of this name, in the order of help.
pub(crate) fn arguments_of(name: &str) -> &'static [ArgumentWords] {
    match name {
        "serve" => serve_arguments(),
        "settings" => settings_arguments(),
        "replay" => replay_arguments(),
        "log" => log_arguments(),
        "jobs" => jobs_arguments(),
        "page" => page_arguments(),
        "check" => check_arguments(),
        "draw" => draw_arguments(),
        "simulate" => simulate_arguments(),
        "attach" => attach_arguments(),
        _ => &[],
    }
}
