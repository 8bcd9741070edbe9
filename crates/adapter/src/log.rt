//! The lines of a log.
use adapter_core::OrderFault;
use adapter_printers::{Breach, LeftOut, ReplyBreach};
use std::alloc::{AllocError, Global};
use std::fmt;

/// An event that gets a line in the log.
#[derive(Clone, Copy)]
pub(crate) enum LogEntry {
    /// The connection to the server is made.
    Linked,
    /// The connection to the server is lost.
    Unlinked,
    /// The server closed the connection before it accepted the device's name.
    TurnedAway,
    /// The server can't be reached.
    ServerAway,
    /// The server sent octets that are no order.
    Refused(OrderFault),
    /// The server sent a job before the last one was reported as done.
    JobTooEarly(u32),
    PrinterAway,
    PrinterBack,
    PrinterStopped,
    PrinterRuns,
    /// The printer failed this many jobs in a row, the last one by this breach, and isn't tried for a while.
    Rests(u32, Breach),
    /// The printer's state can't be read.
    Unread(ReplyBreach),
    /// A part of the job isn't passed to the printer.
    LeftOut(LeftOut),
    Began { job: u32, octets: u32, copies: u32 },
    Done(u32),
    Failed(u32, Breach),
    /// The job is given up, since the adapter ends.
    GivenUp(u32),
    /// The adapter ends, since its input has ended.
    Ended,
}

impl fmt::Display for LogEntry {
    fn fmt<W: fmt::Write>(&self, f: &mut fmt::Formatter<W>) -> fmt::Result {
        f.write_str(match *self {
            LogEntry::Linked => "linked",
            LogEntry::Unlinked => "unlinked",
            LogEntry::TurnedAway => TURNED_AWAY,
            LogEntry::ServerAway => "server away",
            LogEntry::PrinterAway => "printer away",
            LogEntry::PrinterBack => "printer back",
            LogEntry::PrinterStopped => "printer stopped",
            LogEntry::PrinterRuns => "printer runs",
            LogEntry::Ended => "ended",
            LogEntry::Refused(fault) => return write!(f, "refused {fault}"),
            LogEntry::JobTooEarly(job) => {
                return write!(f, "refused job {job} before the last was answered");
            }
            LogEntry::Rests(failures, breach) => {
                let advice = breach.advice();
                return write!(
                    f,
                    "printer rests: {failures} jobs failed in a row; {advice}"
                );
            }
            LogEntry::Unread(breach) => return write!(f, "printer unread {breach}"),
            LogEntry::LeftOut(left_out) => return write!(f, "left out{left_out}"),
            LogEntry::Began {
                job,
                octets,
                copies,
            } => return write!(f, "job {job} {octets} {copies}"),
            LogEntry::Done(job) => return write!(f, "done {job}"),
            LogEntry::Failed(job, breach) => return write!(f, "fail {job} {breach}"),
            LogEntry::GivenUp(job) => return write!(f, "fail {job} ended"),
        })
    }
}

/// The message for a server that closes the connection at once.
const TURNED_AWAY: &str =
    "turned away: the server has no device of this name, or another connection has the name";

/// Returns whether an event needs a person, or is the end of one that does.
fn is_for_people(note: LogEntry) -> bool {
    matches!(
        note,
        LogEntry::ServerAway
            | LogEntry::TurnedAway
            | LogEntry::Linked
            | LogEntry::PrinterAway
            | LogEntry::PrinterStopped
            | LogEntry::PrinterBack
            | LogEntry::PrinterRuns
            | LogEntry::Unread(_)
            | LogEntry::Rests(..)
    ) || matches!(note, LogEntry::Failed(_, breach) if !matches!(breach, Breach::Canceled))
}

/// An event that needs a person, or the end of one, in words.
#[derive(Clone, Copy)]
struct InWords(LogEntry);

impl fmt::Display for InWords {
    fn fmt<W: fmt::Write>(&self, f: &mut fmt::Formatter<W>) -> fmt::Result {
        f.write_str(match self.0 {
            LogEntry::ServerAway => "the server can't be reached; it is tried again",
            LogEntry::TurnedAway => TURNED_AWAY,
            LogEntry::Linked => "the server is there",
            LogEntry::PrinterAway => "the printer can't be reached; it is tried again",
            LogEntry::PrinterStopped => "the printer needs someone",
            LogEntry::PrinterBack | LogEntry::PrinterRuns => "the printer prints again",
            LogEntry::Unread(breach) => return write!(
                f,
                "the printer's state can't be read: {breach}"
            ),
            LogEntry::Failed(job, breach) => return write!(f, "job {job} failed: {breach}"),
            LogEntry::Rests(failures, breach) => {
                let advice = breach.advice();
                return write!(
                    f,
                    "{failures} jobs failed in a row, and the printer rests for 5 minutes; {advice}"
                );
            }
            note => return write!(f, "{note}"),
        })
    }
}

/// The lines of some turns. In a log that is kept, each event has a line, which begins with the ms since the
/// start. Otherwise only an event that needs a person, or its end, has one, in words.
#[derive(Drop)]
pub(crate) struct Log {
    alloc: Global,
    /// The name of the device.
    name: String,
    kept: bool,
    now: u64,
    /// Whether the last line in words is one of trouble with the server.
    unserved: bool,
    text: Vec<u8>,
}

impl Log {
    /// Creates an empty log.
    pub(crate) fn new(alloc: Global, name: String, kept: bool) -> Log {
        Log {
            alloc,
            name,
            kept,
            now: 0,
            unserved: false,
            text: Vec::new(alloc),
        }
    }

    /// Sets the time.
    pub(crate) fn set_now(&mut self, now: u64) {
        self.now = now;
    }

    /// Appends a line. If memory is refused, the line is left out.
    pub(crate) fn note(&mut self, note: LogEntry) {
        let _added = if self.kept {
            self.add(note)
        } else {
            self.add_words(note)
        };
    }

    /// Appends a line in words, if the event needs a person or is the end of that. The only error is out of
    /// memory.
    fn add_words(&mut self, note: LogEntry) -> Result<(), AllocError> {
        let is_end = matches!(note, LogEntry::Linked);
        if is_end && !std::mem::replace(&mut self.unserved, false) {
            return Ok(());
        }
        self.unserved |= matches!(note, LogEntry::ServerAway | LogEntry::TurnedAway);
        if !is_for_people(note) {
            return Ok(());
        }
        let name = self.name.as_str();
        let words = InWords(note);
        let line = format!(in self.alloc; "printd attach {name}: {words}\n")?;
        self.text.extend_from_slice(line.as_bytes())
    }

    /// Appends a line. The only error is out of memory.
    fn add(&mut self, note: LogEntry) -> Result<(), AllocError> {
        let now = self.now;
        let line = format!(in self.alloc; "{now} {note}\n")?;
        self.text.extend_from_slice(line.as_bytes())
    }

    /// Removes and returns the lines since the last call.
    pub(crate) fn take(&mut self) -> Vec<u8> {
        std::mem::replace(&mut self.text, Vec::new(self.alloc))
    }
}
