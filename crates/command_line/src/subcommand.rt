//! The subcommands of the program.
use crate::attach_words::Attaching;
use crate::page_words::Paging;
use crate::simulate_words::Simulating;
use std::net::SocketAddr;

/// A subcommand, with its options.
#[derive(Debug, Drop)]
pub enum Subcommand<'a> {
    /// Serve over sockets.
    Serve(Serving<'a>),
    /// Show or judge settings.
    Settings(AboutSettings<'a>),
    /// Replay a trace.
    Replay(Replaying<'a>),
    /// Write the log lines of a recorded day.
    Log {
        /// The file of the day; `None` for standard input.
        file: Option<&'a str>,
    },
    /// Write the jobs of a recorded day as comma-separated values.
    Jobs {
        /// The files of the day, in their order; at least one.
        files: Vec<&'a str>,
    },
    /// Write the page of a recorded day's queue.
    Page(Paging<'a>),
    /// Judge the text of a plan, and write the start of each job if `starts` is set.
    Check {
        /// The file of the plan; `None` for standard input.
        file: Option<&'a str>,
        starts: bool,
    },
    /// Draw a plan or a day, in SVG or for a terminal.
    Draw {
        text: bool,
        drawn: Drawn<'a>,
    },
    /// Play a day of jobs.
    Simulate(Simulating<'a>),
    /// Attach a printer to a server.
    Attach(Attaching<'a>),
}

/// What `printd draw` draws.
#[derive(Clone, Copy, Debug)]
pub enum Drawn<'a> {
    /// The plan of this file; `None` for standard input.
    Plan { file: Option<&'a str> },
    /// The day of the trace of this file.
    Day { trace: &'a str },
}

/// The options of `printd serve`.
#[derive(Debug, Drop)]
pub struct Serving<'a> {
    /// The file of the settings; `None` for the built-in settings.
    pub settings: Option<&'a str>,
    /// The addresses of the doors for clients of IPP, for clients of LPD and for devices: at least one of
    /// each, in the order of the words. The port 0 means any free port.
    pub ipp: Vec<SocketAddr>,
    pub lpd: Vec<SocketAddr>,
    pub devices: Vec<SocketAddr>,
    pub turns: u64,
    /// The destination of the log, if a log is written.
    pub log: Option<Log<'a>>,
    /// The file of the day's recording, if the day is recorded.
    pub record: Option<&'a str>,
    /// Whether the octets of documents are recorded as zeros.
    pub record_heads: bool,
    /// Where the queue is kept, if it survives a restart.
    pub spool: Option<Spooling<'a>>,
}

/// How `printd serve` keeps its queue.
#[derive(Clone, Copy, Debug)]
pub struct Spooling<'a> {
    pub directory: &'a str,
    /// Whether nothing is answered before it is on the disk.
    pub sync: bool,
    /// Whether the files of past days stay.
    pub keep: bool,
    /// Whether jobs that devices had in hand are printed again.
    pub reprint: bool,
}

/// The options of `printd replay`.
#[derive(Clone, Copy, Debug)]
pub struct Replaying<'a> {
    /// The file of the trace; `None` for standard input.
    pub file: Option<&'a str>,
    /// Whether the text of each plan is written too.
    pub plans: bool,
    /// Whether of a recorded day only the result of the comparison is written.
    pub verify: bool,
}

/// The destination of a log.
#[derive(Clone, Copy, Debug)]
pub enum Log<'a> {
    StandardError,
    /// The end of this file.
    File(&'a str),
}

/// The subcommands about settings.
#[derive(Clone, Copy, Debug)]
pub enum AboutSettings<'a> {
    /// Show the built-in settings.
    BuiltIn,
    /// Judge the settings of this file.
    Judge {
        file: &'a str,
    },
    /// Show the Avahi service of a printer of this file: of the named printer, or of the only printer.
    Avahi {
        file: &'a str,
        printer: Option<&'a str>,
        /// The port of the door for LPD clients. The port of the door for IPP clients is in the settings.
        lpd: u16,
    },
}
