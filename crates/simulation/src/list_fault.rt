//! The faults of a list.

use crate::column::Column;
use std::alloc::{AllocError, AllocFailed};
use std::fmt;
use thiserror::Error;

/// Why a text isn't a list of jobs.
#[derive(Clone, Copy, Debug)]
pub enum ListFault {
    /// The head names a column twice.
    ColumnTwice,
    /// No column has the moments.
    NoMomentColumn,
    /// No column has impressions or octets.
    NoLengthColumn,
    /// A line has another number of fields than the head.
    FieldCount,
    /// A field has a value that its column doesn't allow.
    Field(Column),
    /// A moment has another form than those before.
    OtherClock,
    /// A job has no moment.
    NoMoment,
    /// A job has neither impressions nor octets.
    NoLength,
    /// There are more jobs than [`crate::MOST_JOBS`].
    TooMany,
}

/// Why a line isn't a job, or no head.
#[derive(Clone, Copy)]
pub(crate) enum LineError {
    /// A fault of the line, or of the column at a place.
    Fault {
        place: Option<usize>,
        fault: ListFault,
    },
    OutOfMemory,
}

/// The place of a fault.
#[derive(Drop, Debug)]
pub struct FaultPlace {
    /// The line, counted from 1.
    pub line: u64,
    /// The name of the column, as it is shown.
    pub column: Option<String>,
}

/// Why no list was read.
#[derive(Debug, Drop, Error)]
pub enum ListError {
    /// The text is empty.
    #[error("there is no list: the first line names the columns, and each further line is a job")]
    Empty,
    /// The text has a head alone.
    #[error("the list has no jobs: there is no line below the names of the columns")]
    NoJobs,
    /// The text isn't a list.
    #[error("{place}: {fault}")]
    Fault { place: FaultPlace, fault: ListFault },
    #[error("out of memory")]
    OutOfMemory,
}

impl ListFault {
    /// The words about the fault.
    fn meaning(self) -> &'static str {
        match self {
            ListFault::ColumnTwice => "another column says the same",
            ListFault::NoMomentColumn =>
                "no column has the moments: its name is moment, time, timestamp or date",
            ListFault::NoLengthColumn =>
                "no column has the lengths: its name is impressions, pages, octets or bytes",
            ListFault::FieldCount => "this line has another number of fields than the head",
            ListFault::Field(column) => column.wanted(),
            ListFault::OtherClock =>
                "the moments of a list are all numbers, all clock times, all dates with a zone or all dates without",
            ListFault::NoMoment => "this job has no moment",
            ListFault::NoLength => "this job has neither impressions nor octets",
            ListFault::TooMany => "there are more than 100,000 jobs",
        }
    }
}

impl fmt::Display for ListFault {
    fn fmt<W: fmt::Write>(&self, f: &mut fmt::Formatter<W>) -> fmt::Result {
        f.write_str(self.meaning())
    }
}

impl fmt::Display for FaultPlace {
    fn fmt<W: fmt::Write>(&self, f: &mut fmt::Formatter<W>) -> fmt::Result {
        let line = self.line;
        match &self.column {
            Some(column) => write!(f, "line {line}, column \"{column}\""),
            None => write!(f, "line {line}"),
        }
    }
}

impl From<AllocError> for ListError {
    fn from(_error: AllocError) -> ListError {
        ListError::OutOfMemory
    }
}

impl<T: Drop> From<AllocFailed<T>> for ListError {
    fn from(_error: AllocFailed<T>) -> ListError {
        ListError::OutOfMemory
    }
}

impl From<ListFault> for LineError {
    fn from(fault: ListFault) -> LineError {
        LineError::Fault { place: None, fault }
    }
}

impl From<AllocError> for LineError {
    fn from(_error: AllocError) -> LineError {
        LineError::OutOfMemory
    }
}

impl<T: Drop> From<AllocFailed<T>> for LineError {
    fn from(_error: AllocFailed<T>) -> LineError {
        LineError::OutOfMemory
    }
}
