//! The head of a list: the line with the names of its columns.

use crate::column::Column;
use crate::list_fault::{LineError, ListFault};
use csv::ByteRecord;
use std::alloc::{AllocError, Global};

/// The most characters of a column's name that are shown.
const SHOWN: usize = 40;

/// The columns of a list.
#[derive(Drop)]
pub(crate) struct Head<'a> {
    record: &'a ByteRecord,
    /// The column at each place; `None` if it is ignored.
    pub(crate) columns: Vec<Option<Column>>,
}

/// A name as the tables of columns have it.
fn plain(alloc: Global, name: &[u8]) -> Result<Vec<u8>, AllocError> {
    let mut letters = Vec::new(alloc);
    for byte in name {
        if !matches!(byte, b' ' | b'-' | b'_') {
            letters.push(byte.to_ascii_lowercase())?;
        }
    }
    Ok(letters)
}

/// A name as it is shown: its first characters, those that don't print as `?`.
fn shown(alloc: Global, name: &[u8]) -> Result<String, AllocError> {
    let mut letters = String::new(alloc);
    for letter in str::from_utf8(name).unwrap_or("?").chars().take(SHOWN) {
        letters.push(if letter.is_control() { '?' } else { letter })?;
    }
    Ok(letters)
}

/// The name of the column at a place of a head, as it is shown.
pub(crate) fn name_at(
    alloc: Global,
    record: &ByteRecord,
    place: usize,
) -> Result<String, AllocError> {
    shown(alloc, text::trimmed(record.get(place).unwrap_or(b"")))
}

impl<'a> Head<'a> {
    /// The columns of a record.
    pub(crate) fn new(alloc: Global, record: &'a ByteRecord) -> Result<Head<'a>, LineError> {
        let mut head = Head {
            record,
            columns: Vec::new(alloc),
        };
        head.add_named(alloc)?;
        head.add_spare(alloc)?;
        head.check()?;
        Ok(head)
    }

    /// Returns whether one of the columns is this one.
    fn has(&self, column: Column) -> bool {
        self.columns.contains(&Some(column))
    }

    /// Adds the columns of the names, and `None` for each name that selects none.
    fn add_named(&mut self, alloc: Global) -> Result<(), LineError> {
        for (place, name) in self.record.iter().enumerate() {
            let column = Column::named(&plain(alloc, text::trimmed(name))?);
            if column.is_some() && self.columns.contains(&column) {
                return Err(LineError::Fault {
                    place: Some(place),
                    fault: ListFault::ColumnTwice,
                });
            }
            self.columns.push(column)?;
        }
        Ok(())
    }

    /// Sets the columns that only a spare name has.
    fn add_spare(&mut self, alloc: Global) -> Result<(), AllocError> {
        for (place, name) in self.record.iter().enumerate() {
            if let Some(column) = Column::named_in_spare(&plain(alloc, text::trimmed(name))?) {
                self.set_spare(place, column);
            }
        }
        Ok(())
    }

    /// Sets the column at a place, if no other is the same.
    fn set_spare(&mut self, place: usize, column: Column) {
        if self.has(column) {
            return;
        }
        if let Some(found) = self.columns.get_mut(place) {
            *found = Some(column);
        }
    }

    /// Tests that the columns are there without which no line is a job.
    fn check(&self) -> Result<(), ListFault> {
        if !self.has(Column::Moment) {
            Err(ListFault::NoMomentColumn)
        } else if !self.has(Column::Impressions) && !self.has(Column::Octets) {
            Err(ListFault::NoLengthColumn)
        } else {
            Ok(())
        }
    }

    /// The names of the ignored columns, as they are shown.
    pub(crate) fn ignored(&self, alloc: Global) -> Result<Vec<String>, AllocError> {
        let mut names = Vec::new(alloc);
        for (place, column) in self.columns.iter().enumerate() {
            let name = name_at(alloc, self.record, place)?;
            if column.is_none() && !name.is_empty() {
                names.push(name)?;
            }
        }
        Ok(names)
    }
}

/// How often a byte occurs in a line.
fn count_of(line: &[u8], wanted: u8) -> usize {
    let mut count = 0usize;
    for byte in line {
        if *byte == wanted {
            count = count.saturating_add(1);
        }
    }
    count
}

/// The separator of a head, if it has any: of comma, semicolon and tab the most frequent.
fn separator_of(line: &[u8]) -> Option<u8> {
    let mut found = None;
    let mut most = 0;
    for separator in [b',', b';', b'\t'] {
        let count = count_of(line, separator);
        if count > most {
            most = count;
            found = Some(separator);
        }
    }
    found
}

/// The text from the head of a list on.
#[derive(Clone, Copy)]
pub(crate) struct FromHead<'a> {
    pub(crate) text: &'a [u8],
    pub(crate) separator: u8,
    /// The number of lines before the head.
    pub(crate) skipped: u64,
}

/// The text from the first line with a separator on; from the first line if none has one. A log may begin with
/// the name of the program that wrote it.
pub(crate) fn from_head(text: &[u8]) -> FromHead<'_> {
    let mut start = 0usize;
    let mut skipped = 0u64;
    for line in text.split(|byte| *byte == b'\n') {
        if let Some(separator) = separator_of(line) {
            return FromHead {
                text: text.get(start..).unwrap_or(text),
                separator,
                skipped,
            };
        }
        start = start.saturating_add(line.len()).saturating_add(1);
        skipped = skipped.saturating_add(1);
    }
    FromHead {
        text,
        separator: b',',
        skipped: 0,
    }
}
