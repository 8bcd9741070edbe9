//! The marks of a journal.
use crate::resumption::JournaledEngine;
use std::alloc::{AllocError, Global};
use text::decimal;

/// A comment after a turn: whether jobs are unfinished. A server that can't take the turns of a journal, since another
/// version wrote it, begins anew where none was unfinished at its end.
#[derive(Clone, Copy, PartialEq, Eq)]
pub enum Mark {
    /// No job is unfinished, and the next job gets the id of this number.
    Quiet(u32),
    /// Jobs are unfinished, or all ids are used.
    Busy,
}

impl Mark {
    /// The mark of an engine.
    pub fn of(engine: &JournaledEngine) -> Mark {
        match engine.next_job_id() {
            Some(next) if engine.unfinished_jobs() == 0 => Mark::Quiet(next.number()),
            _ => Mark::Busy,
        }
    }

    /// Appends the line of the mark. The only error is out of memory.
    pub fn put(self, alloc: Global, lines: &mut Vec<u8>) -> Result<(), AllocError> {
        match self {
            Mark::Quiet(number) => {
                let line = format!(in alloc; "#quiet {number}\n")?;
                lines.extend_from_slice(line.as_bytes())
            }
            Mark::Busy => lines.extend_from_slice(b"#busy\n"),
        }
    }

    /// The mark of a line, which has no line feed at its end.
    pub fn read(line: &[u8]) -> Option<Mark> {
        if line == b"#busy".as_slice() {
            return Some(Mark::Busy);
        }
        let number = decimal(line.strip_prefix(b"#quiet ")?)?;
        Some(Mark::Quiet(number))
    }
}
