//! Rows files, which are lines of text. Empty lines and lines that begin with `#` are skipped.
//!
//! - `text NAME BYTES` names bytes. BYTES is the rest of the line, and may be absent. Its escapes are `\n`, `\r`, `\t`, `\0`,
//!   `\\`, `\{` and `\xNN`; `{NAME}` is the bytes of a name, and `{a*100}` one byte 100 times. A blank at the
//!   end of the line is written `\x20`.
//! - `begin NAME` begins a list of first steps, and `row SENTENCE` a row. `after NAME`, the first line of either, is
//!   the steps of a list above. The steps follow, and after those of a row a line `log LINE` for each line of the log.
//! - Steps of the adapter: `connects PEER`, `misses PEER`, `writes PEER BYTES`, `finishes PEER`, and to a printer with
//!   IPP `asks OPERATION BYTES` and `begins BYTES`. PEER is `server` or `printer`.
//! - Steps of a peer: `sends PEER BYTES`, `ends PEER`, `breaks PEER`, and of a printer with IPP `answers STATUS REQUEST
//!   BYTES`, with the status in hexadecimal, the id of the request and the groups of attributes.
//! - Other steps: `holds COUNT`, `closes`, `passes MS`. [`crate::step::Act`] defines each step.

use crate::data_fault::{DataFault, RowsFault};
use crate::escapes::{NamedBytes, read_bytes};
use crate::row::AdapterRow;
use crate::step::Step;
use crate::step_reader::{first_word, read_step};
use std::alloc::{AllocError, Global};

/// What the lines that are read now belong to.
#[derive(Clone, Copy, PartialEq, Eq)]
enum Part {
    /// Nothing: the file's head.
    Head,
    /// A list of first steps.
    Steps,
    Row,
}

/// A rows file, as far as it is read.
#[derive(Drop)]
struct RowsReader {
    alloc: Global,
    texts: Vec<NamedBytes>,
    /// The lists of first steps, as rows without a log, and the rows.
    lists: Vec<AdapterRow>,
    rows: Vec<AdapterRow>,
    /// The list or the row that is read now.
    part: Part,
    row: AdapterRow,
}

impl RowsReader {
    fn new(alloc: Global) -> RowsReader {
        RowsReader {
            alloc,
            texts: Vec::new(alloc),
            lists: Vec::new(alloc),
            rows: Vec::new(alloc),
            part: Part::Head,
            row: AdapterRow::new(alloc),
        }
    }

    /// Reads a line. The error is why it can't be read.
    fn read_line(&mut self, line: &str) -> Result<(), DataFault> {
        if line.is_empty() || line.starts_with("#") {
            return Ok(());
        }
        let (word, rest) = first_word(line);
        match word {
            "text" => self.name_bytes(rest),
            "begin" => self.open(Part::Steps, rest),
            "row" => self.open(Part::Row, rest),
            "after" => self.add_list(rest),
            "log" => self.add_log(rest),
            _ => self.add_step(word, rest),
        }
    }

    /// Adds named bytes. The error is also that the name is used.
    fn name_bytes(&mut self, rest: &str) -> Result<(), DataFault> {
        let (name, written) = first_word(rest);
        if self.texts.iter().any(|text| text.name.as_str() == name) {
            return Err(DataFault::NameTwice);
        }
        let text = NamedBytes {
            name: String::from_str(self.alloc, name)?,
            bytes: read_bytes(self.alloc, &self.texts, written)?,
        };
        self.texts.push(text)?;
        Ok(())
    }

    /// Ends the list or the row that is read now. The only error is out of memory.
    fn close(&mut self) -> Result<(), DataFault> {
        let row = std::mem::replace(&mut self.row, AdapterRow::new(self.alloc));
        match std::mem::replace(&mut self.part, Part::Head) {
            Part::Head => {}
            Part::Steps => self.lists.push(row)?,
            Part::Row => self.rows.push(row)?,
        }
        Ok(())
    }

    /// Begins a list or a row of this name. The error is also that a list has it.
    fn open(&mut self, part: Part, name: &str) -> Result<(), DataFault> {
        self.close()?;
        if part == Part::Steps && list_named(&self.lists, name).is_some() {
            return Err(DataFault::NameTwice);
        }
        self.row.name = String::from_str(self.alloc, name)?;
        self.part = part;
        Ok(())
    }

    /// Checks that a step may come here.
    fn check_order(&self) -> Result<(), DataFault> {
        if self.part == Part::Head {
            return Err(DataFault::Outside);
        }
        if !self.row.log.is_empty() {
            return Err(DataFault::Order);
        }
        Ok(())
    }

    /// Adds a step.
    fn add_step(&mut self, word: &str, rest: &str) -> Result<(), DataFault> {
        self.check_order()?;
        let step = read_step(self.alloc, &self.texts, word, rest)?;
        self.row.steps.push(step)?;
        Ok(())
    }

    /// Adds the steps of a list. The error is also that other steps came before.
    fn add_list(&mut self, name: &str) -> Result<(), DataFault> {
        self.check_order()?;
        if !self.row.steps.is_empty() {
            return Err(DataFault::Order);
        }
        match list_named(&self.lists, name) {
            Some(list) => {
                self.row.steps = copies(self.alloc, list)?;
                Ok(())
            }
            None => Err(DataFault::StepsName),
        }
    }

    /// Adds a line to the log. The error is also that a list of first steps has none.
    fn add_log(&mut self, line: &str) -> Result<(), DataFault> {
        if self.part != Part::Row {
            return Err(DataFault::Outside);
        }
        self.row.log.push_str(line)?;
        self.row.log.push_str("\n")?;
        Ok(())
    }

    /// Ends the last row. Returns the rows.
    fn finish(mut self) -> Result<Vec<AdapterRow>, DataFault> {
        self.close()?;
        let RowsReader { rows, .. } = self;
        Ok(rows)
    }
}

/// The first steps of a name.
fn list_named<'a>(lists: &'a [AdapterRow], name: &str) -> Option<&'a [Step]> {
    for list in lists {
        if list.name.as_str() == name {
            return Some(list.steps.as_slice());
        }
    }
    None
}

/// Copies of steps.
fn copies(alloc: Global, steps: &[Step]) -> Result<Vec<Step>, AllocError> {
    let mut copied = Vec::with_capacity(alloc, steps.len())?;
    for step in steps {
        copied.push(Step {
            act: step.act,
            bytes: Vec::from_slice(alloc, &step.bytes)?,
        })?;
    }
    Ok(copied)
}

/// Reads the rows of a file. The error is that of the first line that can't be read.
pub(crate) fn read_rows(alloc: Global, text: &str) -> Result<Vec<AdapterRow>, RowsFault> {
    let mut reader = RowsReader::new(alloc);
    let mut line = 0usize;
    for content in text.lines() {
        line = line.saturating_add(1);
        if let Err(fault) = reader.read_line(content) {
            return Err(RowsFault { line, fault });
        }
    }
    match reader.finish() {
        Ok(rows) => Ok(rows),
        Err(fault) => Err(RowsFault { line, fault }),
    }
}
