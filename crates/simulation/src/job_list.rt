//! The jobs of a text.

use crate::draft::{Draft, ListedJob};
use crate::head::{FromHead, Head, from_head, name_at};
use crate::list_fault::{FaultPlace, LineError, ListError, ListFault};
use crate::moment::{Clock, Stamp};
use base_types::Limits;
use csv::{ByteRecord, Error, ErrorKind, Reader, ReaderBuilder};
use settings_file::Settings;
use std::alloc::Global;

/// The most jobs of a list.
pub const MOST_JOBS: usize = 100_000;

/// A list of jobs.
#[derive(Drop)]
pub struct JobList {
    /// The jobs, by rising moment; those of one moment in the order of the list.
    pub jobs: Vec<ListedJob>,
    /// The names of the columns that were ignored.
    pub ignored: Vec<String>,
    /// Whether a job named another printer than the only one of the settings.
    pub names_others: bool,
}

/// The lines of a list that were read.
#[derive(Drop)]
struct Lines<'a> {
    alloc: Global,
    settings: &'a Settings,
    head: &'a Head<'a>,
    jobs: Vec<ListedJob>,
    /// The form of the moments, which the first job has.
    clock: Option<Clock>,
    names_others: bool,
}

/// The records of a list, and the first of them.
#[derive(Drop)]
struct Records<'a> {
    reader: Reader<&'a [u8]>,
    /// The most records that there are.
    most: usize,
    /// The number of lines before the first record.
    skipped: u64,
}

/// The fault of a line.
fn fault_at(line: u64, column: Option<String>, fault: ListFault) -> ListError {
    ListError::Fault {
        place: FaultPlace { line, column },
        fault,
    }
}

/// The error of a line of a list with this head.
fn error_at(alloc: Global, head: &ByteRecord, line: u64, error: LineError) -> ListError {
    match error {
        LineError::Fault {
            place: Some(place),
            fault,
        } => match name_at(alloc, head, place) {
            Ok(name) => fault_at(line, Some(name), fault),
            Err(_) => ListError::OutOfMemory,
        },
        LineError::Fault { place: None, fault } => fault_at(line, None, fault),
        LineError::OutOfMemory => ListError::OutOfMemory,
    }
}

impl<'a> Records<'a> {
    /// The records of a text from its head on.
    fn new(alloc: Global, found: FromHead<'a>) -> Records<'a> {
        let mut builder = ReaderBuilder::new();
        builder.has_headers(false).delimiter(found.separator);
        Records {
            reader: builder.from_reader(alloc, found.text),
            most: found.text.len(),
            skipped: found.skipped,
        }
    }

    /// The error of a record that can't be read. A text in memory has no other errors.
    fn unread(&self, error: &Error) -> ListError {
        match error.kind() {
            ErrorKind::UnequalLengths { pos: Some(pos), .. } => {
                let line = pos.line().saturating_add(self.skipped);
                fault_at(line, None, ListFault::FieldCount)
            }
            _ => ListError::OutOfMemory,
        }
    }

    /// Reads the next record. Returns whether there was one.
    fn read(&mut self, row: &mut ByteRecord) -> Result<bool, ListError> {
        match self.reader.read_byte_record(row) {
            Ok(found) => Ok(found),
            Err(error) => Err(self.unread(&error)),
        }
    }

    /// The line at which a record begins.
    fn line_of(&self, row: &ByteRecord) -> u64 {
        match row.position() {
            Some(position) => position.line().saturating_add(self.skipped),
            None => 0,
        }
    }
}

/// Returns whether all fields of a record are empty.
fn is_blank(row: &ByteRecord) -> bool {
    for field in row.iter() {
        if !text::trimmed(field).is_empty() {
            return false;
        }
    }
    true
}

/// Counts the moments from the first of the list, except where they are numbers, which count from the
/// beginning of the day.
fn count_from_first(jobs: &mut [ListedJob], clock: Clock) {
    let first = match jobs.first() {
        Some(job) if clock != Clock::Millis => job.moment,
        _ => 0,
    };
    for job in jobs.iter_mut() {
        job.moment = job.moment.saturating_sub(first).min(Limits::LAST_MOMENT);
    }
}

impl<'a> Lines<'a> {
    /// The job of a line, before it has a place.
    fn draft_of<'b>(&self, row: &'b ByteRecord) -> Result<Draft<'b>, LineError> {
        let mut draft = Draft::new();
        for (place, column) in self.head.columns.iter().enumerate() {
            if let (Some(column), Some(field)) = (*column, row.get(place)) {
                let field = text::trimmed(field);
                if let Err(fault) = draft.take(column, field, self.settings) {
                    return Err(LineError::Fault {
                        place: Some(place),
                        fault,
                    });
                }
            }
        }
        Ok(draft)
    }

    /// Takes the form of a moment, which is that of the moments before.
    fn take_clock(&mut self, stamp: Option<Stamp>) -> Result<(), ListFault> {
        let Some(stamp) = stamp else {
            return Ok(());
        };
        if let Some(clock) = self.clock
            && clock != stamp.clock
        {
            return Err(ListFault::OtherClock);
        }
        self.clock = Some(stamp.clock);
        Ok(())
    }

    /// Adds the job of a line.
    fn add(&mut self, row: &ByteRecord) -> Result<(), LineError> {
        if self.jobs.len() >= MOST_JOBS {
            return Err(LineError::from(ListFault::TooMany));
        }
        let draft = self.draft_of(row)?;
        self.take_clock(draft.stamp())?;
        self.names_others = self.names_others || draft.is_of_another;
        let job = draft.job(self.alloc, self.settings)?;
        self.jobs.push(job)?;
        Ok(())
    }

    /// The list of the lines.
    fn list(self) -> Result<JobList, ListError> {
        let Lines {
            alloc,
            head,
            jobs,
            clock,
            names_others,
            ..
        } = self;
        let Some(clock) = clock else {
            return Err(ListError::NoJobs);
        };
        let mut jobs = jobs;
        jobs.sort_by_key(|job| job.moment)?;
        count_from_first(&mut jobs, clock);
        Ok(JobList {
            jobs,
            ignored: head.ignored(alloc)?,
            names_others,
        })
    }
}

/// Reads the jobs below the head.
fn read_jobs(
    alloc: Global,
    records: &mut Records<'_>,
    header: &ByteRecord,
    lines: &mut Lines<'_>,
) -> Result<(), ListError> {
    let mut row = ByteRecord::new(alloc);
    for _ in 0..records.most {
        if !records.read(&mut row)? {
            return Ok(());
        }
        if is_blank(&row) {
            continue;
        }
        if let Err(error) = lines.add(&row) {
            return Err(error_at(alloc, header, records.line_of(&row), error));
        }
    }
    Ok(())
}

/// Reads the head, and the jobs below it.
fn read_records(
    alloc: Global,
    records: &mut Records<'_>,
    settings: &Settings,
) -> Result<JobList, ListError> {
    let mut header = ByteRecord::new(alloc);
    if !records.read(&mut header)? {
        return Err(ListError::Empty);
    }
    let head = match Head::new(alloc, &header) {
        Ok(head) => head,
        Err(error) => return Err(error_at(alloc, &header, records.line_of(&header), error)),
    };
    let mut lines = Lines {
        alloc,
        settings,
        head: &head,
        jobs: Vec::new(alloc),
        clock: None,
        names_others: false,
    };
    read_jobs(alloc, records, &header, &mut lines)?;
    lines.list()
}

/// Reads the jobs of a text. Its head, the first line with a comma, a semicolon or a tab, has the names of the
/// columns, and each further line is a job. Lines without any value are passed over.
///
/// # Errors
///
/// The first fault, with its line; that there are no jobs; or out of memory.
pub fn read_list(alloc: Global, text: &[u8], settings: &Settings) -> Result<JobList, ListError> {
    let mut records = Records::new(alloc, from_head(text));
    read_records(alloc, &mut records, settings)
}
