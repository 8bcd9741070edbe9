//! A job of a list, read field by field.

use crate::column::Column;
use crate::field::{finishings_named, number_in, sides_named, up_to};
use crate::list_fault::{LineError, ListFault};
use crate::medium::medium_of;
use crate::moment::{Stamp, stamp_of};
use base_types::{Finishings, Limits, Needs, PrinterId, Sides, Text};
use job_objects::estimated_impressions;
use settings_file::{PrinterSettings, Settings};
use std::alloc::{AllocError, Global};

/// A job of a list.
#[derive(Drop)]
pub struct ListedJob {
    /// The moment at which the job comes, in ms: at most [`Limits::LAST_MOMENT`].
    pub moment: u64,
    /// The priority: 1 to [`Limits::HIGHEST_PRIORITY`].
    pub priority: u8,
    pub needs: Needs,
}

/// The fields of a job so far. A missing one has its default.
#[derive(Clone, Copy)]
pub(crate) struct Draft<'a> {
    moment: Option<Stamp>,
    impressions: Option<u32>,
    octets: Option<u32>,
    copies: u32,
    sides: Sides,
    media: Option<&'a [u8]>,
    format: Option<&'a [u8]>,
    finishings: Finishings,
    priority: u32,
    printer: usize,
    /// Whether the job names another printer than the only one of the settings.
    pub(crate) is_of_another: bool,
}

/// The number in a column's field, if the column allows it.
fn number_of(column: Column, field: &[u8]) -> Option<u32> {
    match column {
        Column::Impressions => number_in(field, 1, Limits::IMPRESSIONS),
        Column::Octets => number_in(field, 0, Limits::JOB_OCTETS as u32),
        Column::Copies => number_in(field, 1, Limits::COPIES),
        _ => number_in(field, 1, u32::from(Limits::HIGHEST_PRIORITY)),
    }
}

/// A list of one text. The only error is out of memory.
fn list_of(alloc: Global, bytes: &[u8]) -> Result<Vec<Text>, AllocError> {
    let mut texts = Vec::new(alloc);
    texts.push(Text::copy_of(alloc, bytes)?)?;
    Ok(texts)
}

impl<'a> Draft<'a> {
    /// Creates a job without fields.
    pub(crate) fn new() -> Draft<'a> {
        Draft {
            moment: None,
            impressions: None,
            octets: None,
            copies: 1,
            sides: Sides::One,
            media: None,
            format: None,
            finishings: Finishings::none(),
            priority: u32::from(Limits::DEFAULT_PRIORITY),
            printer: 0,
            is_of_another: false,
        }
    }

    /// Takes the field of a column. An empty field is ignored.
    pub(crate) fn take(
        &mut self,
        column: Column,
        field: &'a [u8],
        settings: &Settings,
    ) -> Result<(), ListFault> {
        if field.is_empty() {
            return Ok(());
        }
        let taken = match column {
            Column::Impressions | Column::Octets | Column::Copies | Column::Priority =>
                self.take_number(column, field),
            Column::Sides | Column::Finishings => self.take_words(column, field),
            Column::Media | Column::Printer => self.take_named(column, field, settings),
            Column::Moment | Column::Format => self.take_other(column, field),
        };
        taken.ok_or(ListFault::Field(column))
    }

    /// Takes a field with a number other than a moment. Returns `None` if the column doesn't allow the field.
    fn take_number(&mut self, column: Column, field: &[u8]) -> Option<()> {
        let number = number_of(column, field)?;
        match column {
            Column::Impressions => self.impressions = Some(number),
            Column::Octets => self.octets = Some(number),
            Column::Copies => self.copies = number,
            _ => self.priority = number,
        }
        Some(())
    }

    /// Takes a field with known words. Returns `None` if the column doesn't allow the field.
    fn take_words(&mut self, column: Column, field: &[u8]) -> Option<()> {
        match column {
            Column::Sides => self.sides = sides_named(field)?,
            _ => self.finishings = finishings_named(field)?,
        }
        Some(())
    }

    /// Takes a field with a name that the settings may have. Returns `None` if the column doesn't allow the
    /// field.
    fn take_named(&mut self, column: Column, field: &'a [u8], settings: &Settings) -> Option<()> {
        match column {
            Column::Media => self.media = Some(medium_of(field, settings)?),
            _ => self.take_printer(field, settings)?,
        }
        Some(())
    }

    /// Takes the name of a printer. If the settings have one printer alone, each name means it. Returns `None`
    /// if the name means none.
    fn take_printer(&mut self, field: &[u8], settings: &Settings) -> Option<()> {
        match settings.printer_named(field) {
            Some(printer) => self.printer = printer.place(),
            None if settings.printers.len() == 1 => self.is_of_another = true,
            None => return None,
        }
        Some(())
    }

    /// Takes a moment or a format. Returns `None` if the column doesn't allow the field.
    fn take_other(&mut self, column: Column, field: &'a [u8]) -> Option<()> {
        match column {
            Column::Moment => self.moment = Some(stamp_of(field)?),
            _ => self.format = Some(up_to(field, Limits::FORMAT_BYTES)?),
        }
        Some(())
    }

    /// The moment of the job, if it has one.
    pub(crate) fn stamp(&self) -> Option<Stamp> {
        self.moment
    }

    /// The impressions of one copy, if the length is given.
    fn impressions(&self) -> Option<u32> {
        match (self.impressions, self.octets) {
            (Some(impressions), _) => Some(impressions),
            (None, Some(octets)) => {
                let octets = (octets as usize).min(Limits::JOB_OCTETS);
                Some(estimated_impressions(None, octets))
            }
            (None, None) => None,
        }
    }

    /// The needs of the job, with this many impressions. The only error is out of memory.
    fn needs(
        &self,
        alloc: Global,
        printer: &PrinterSettings,
        impressions: u32,
    ) -> Result<Needs, AllocError> {
        let format = self.format.unwrap_or(printer.format_default.as_bytes());
        let media = self.media.unwrap_or(printer.media_default.as_bytes());
        let media = Text::copy_of(alloc, media)?;
        Ok(Needs {
            printer: PrinterId::new(self.printer),
            formats: list_of(alloc, format)?,
            sides: self.sides,
            finishings: self.finishings,
            media,
            impressions: impressions.max(1).min(Limits::IMPRESSIONS),
            copies: self.copies.max(1).min(Limits::COPIES),
        })
    }

    /// The job of the fields, if it has a moment and a length, and there is a printer. Its moment counts from
    /// the first moment of the form in which the list has them.
    pub(crate) fn job(&self, alloc: Global, settings: &Settings) -> Result<ListedJob, LineError> {
        let Some(moment) = self.moment else {
            return Err(LineError::from(ListFault::NoMoment));
        };
        let Some(impressions) = self.impressions() else {
            return Err(LineError::from(ListFault::NoLength));
        };
        let Some(printer) = settings.printers.get(self.printer) else {
            return Err(LineError::from(ListFault::Field(Column::Printer)));
        };
        Ok(ListedJob {
            moment: moment.millis,
            priority: u8::try_from(self.priority).unwrap_or(Limits::DEFAULT_PRIORITY),
            needs: self.needs(alloc, printer, impressions)?,
        })
    }
}
