//! The table of accounts.

use crate::account_cell::{FinishingNames, Seconds, state_name, text_cell, time_cell};
use base_types::{Moment, Text};
use csv::{Writer, WriterBuilder};
use queue_views::{Clock, DayAccounts, JobAccount};
use std::alloc::{AllocError, Global};
use std::fmt::Display;

/// The names of the columns.
const HEAD: [&str; 19] = [
    "id",
    "printer",
    "owner",
    "title",
    "octets",
    "impressions",
    "copies",
    "sides",
    "media",
    "format",
    "finishings",
    "priority",
    "device",
    "time",
    "began",
    "ended",
    "seconds-waited",
    "seconds-printed",
    "state",
];

/// A table of comma-separated values: a head, and a row for each account.
#[derive(Drop)]
pub struct AccountTable {
    alloc: Global,
    writer: Writer<Vec<u8>>,
}

impl AccountTable {
    /// Creates a table with a head alone. The only error is out of memory.
    pub fn new(alloc: Global) -> Result<AccountTable, AllocError> {
        let mut table = AccountTable {
            alloc,
            writer: WriterBuilder::new().from_writer(Vec::new(alloc)),
        };
        for name in HEAD {
            table.write(name)?;
        }
        table.end_row()?;
        Ok(table)
    }

    /// Adds the rows of a day. The only error is out of memory; the last row may be incomplete then.
    pub fn add_day(&mut self, day: &DayAccounts) -> Result<(), AllocError> {
        for account in &day.jobs {
            self.add(account, &day.clock)?;
        }
        Ok(())
    }

    /// Adds the row of a job, with times by a clock. The only error is out of memory; the row may be incomplete then.
    pub fn add(&mut self, account: &JobAccount, clock: &Clock) -> Result<(), AllocError> {
        self.write_origin(account)?;
        self.write_needs(account)?;
        self.write_print(account, clock)?;
        self.end_row()
    }

    /// The bytes of the table. The only error is out of memory.
    pub fn finish(self) -> Result<Vec<u8>, AllocError> {
        self.writer.into_inner().map_err(|_| AllocError)
    }

    /// Writes who sent the job, and where to.
    fn write_origin(&mut self, account: &JobAccount) -> Result<(), AllocError> {
        self.write_shown(account.id.number())?;
        self.write_text(&account.printer)?;
        self.write_text(&account.owner)?;
        self.write_text(&account.title)
    }

    /// Writes what the job needs.
    fn write_needs(&mut self, account: &JobAccount) -> Result<(), AllocError> {
        self.write_shown(account.octets)?;
        self.write_shown(account.impressions)?;
        self.write_shown(account.copies)?;
        self.write(account.sides.keyword())?;
        self.write_text(&account.media)?;
        self.write_some_text(account.format.as_ref())?;
        self.write_shown(FinishingNames(account.finishings))?;
        self.write_shown(account.priority.level())
    }

    /// Writes which device printed the job, and when.
    fn write_print(&mut self, account: &JobAccount, clock: &Clock) -> Result<(), AllocError> {
        self.write_some_text(account.device.as_ref())?;
        self.write_time(Some(account.came), clock)?;
        self.write_time(account.began, clock)?;
        self.write_time(account.ended, clock)?;
        self.write_seconds(account.waited(clock))?;
        self.write_seconds(account.printed(clock))?;
        self.write(state_name(account.state))
    }

    /// Writes a cell of a text of a client.
    fn write_text(&mut self, text: &Text) -> Result<(), AllocError> {
        let cell = text_cell(self.alloc, text.as_bytes())?;
        self.write(&cell)
    }

    /// Writes a cell of a text of a client; an empty cell if there is none.
    fn write_some_text(&mut self, text: Option<&Text>) -> Result<(), AllocError> {
        match text {
            Some(text) => self.write_text(text),
            None => self.write(""),
        }
    }

    /// Writes a cell of a moment; an empty cell if there is none.
    fn write_time(&mut self, moment: Option<Moment>, clock: &Clock) -> Result<(), AllocError> {
        match moment {
            Some(moment) => {
                let cell = time_cell(self.alloc, clock, moment)?;
                self.write(&cell)
            }
            None => self.write(""),
        }
    }

    /// Writes a cell of a time in ms; an empty cell if there is none.
    fn write_seconds(&mut self, millis: Option<u64>) -> Result<(), AllocError> {
        match millis {
            Some(millis) => self.write_shown(Seconds(millis)),
            None => self.write(""),
        }
    }

    /// Writes a cell of a value as it is shown.
    fn write_shown<T: Display + Drop>(&mut self, value: T) -> Result<(), AllocError> {
        let cell = format!(in self.alloc; "{value}")?;
        self.write(&cell)
    }

    /// Writes a cell.
    fn write(&mut self, cell: &str) -> Result<(), AllocError> {
        self.writer
            .write_field(cell.as_bytes())
            .map_err(|_| AllocError)
    }

    /// Ends the current row, after which cells are those of the next.
    fn end_row(&mut self) -> Result<(), AllocError> {
        self.writer.write_fields(&[]).map_err(|_| AllocError)
    }
}
