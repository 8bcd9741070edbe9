//! The results of a printer's turn.
use crate::task_outcome::{LeftOut, ReplyBreach};
use std::fmt;

/// Why a job can't be printed.
#[derive(Clone, Copy)]
pub enum Breach {
    /// The server canceled it.
    Canceled,
    /// The connection to the server was lost.
    Unlinked,
    /// The printer closed or broke its connection before it had all bytes.
    Broken,
    /// The printer refused the job.
    Refused,
    /// The printer took and sent no bytes for too long.
    Silent,
    /// A file can't be written.
    Unwritten,
    /// The printer's reply isn't usable.
    Reply(ReplyBreach),
    /// Memory for the job's octets was refused.
    OutOfMemory,
}

impl Breach {
    /// Returns whether the printer failed the job by itself.
    pub fn is_the_printers(self) -> bool {
        !matches!(
            self,
            Breach::Canceled | Breach::Unlinked | Breach::OutOfMemory
        )
    }

    /// What a person should look at, where job after job fails so.
    pub fn advice(self) -> &'static str {
        match self {
            Breach::Broken => "look at the printer, and at the protocol of --to",
            Breach::Refused => "look at the queue's name in --to",
            Breach::Silent => "look at the printer, and at --pjl and --timeout",
            Breach::Unwritten => "look at the folder's owner and its free space",
            Breach::Reply(ReplyBreach::Http(401 | 403 | 426)) => {
                "the printer wants a password or TLS, which this adapter hasn't"
            }
            Breach::Reply(_) => "look at the printer's own page, and at the formats of the device",
            Breach::Canceled | Breach::Unlinked | Breach::OutOfMemory => "look at the server's log",
        }
    }
}

impl fmt::Display for Breach {
    fn fmt<W: fmt::Write>(&self, f: &mut fmt::Formatter<W>) -> fmt::Result {
        f.write_str(match self {
            Breach::Reply(breach) => return write!(f, "{breach}"),
            Breach::Canceled => "canceled",
            Breach::Unlinked => "unlinked",
            Breach::Broken => "broken",
            Breach::Refused => "refused",
            Breach::Silent => "silent",
            Breach::Unwritten => "unwritten",
            Breach::OutOfMemory => "no memory",
        })
    }
}

/// The result of a printer's turn.
#[derive(Clone, Copy)]
pub enum PrinterEvent {
    Nothing,
    /// The printer can't be reached. This is reported once.
    Away,
    /// The printer can be reached: for the first time, or after it was in doubt.
    Back,
    /// The printer reports that it needs a person: paper is out or jammed, or a cover is open.
    Stops,
    /// The printer reports that it prints again.
    Runs,
    /// This many pages of the job are printed.
    Pages(u32),
    /// These parts of the job aren't passed to the printer, since it doesn't report that it supports them.
    LeftOut(LeftOut),
    /// The printer's state can't be read.
    Unread(ReplyBreach),
    /// The printer has printed the job. The number of its pages, if that comes only now.
    Printed(Option<u32>),
    /// The printer can't print the job.
    Failed(Breach),
}

/// Memory to go on with a job was refused.
pub(crate) const NO_MEMORY: PrinterEvent = PrinterEvent::Failed(Breach::OutOfMemory);
