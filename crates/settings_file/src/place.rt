//! The place of a fault in a text.
use crate::last_table::LastTable;
use crate::statement::{Content, Statement, Statements};
use std::alloc::Global;

/// The places in a text of one table and one of its keys, as far as they are found.
#[derive(Clone, Copy)]
pub(crate) struct Place<'a> {
    /// The line of the key; if the table hasn't the key, that of the table's header.
    pub(crate) line: Option<usize>,
    /// The value of the key, as the text writes it.
    pub(crate) value: Option<&'a str>,
    /// The name of the table, as the text writes it.
    pub(crate) name: Option<&'a str>,
    /// Whether `line` is that of the key.
    has_key: bool,
}

/// The table of the current statement, and the numbers of tables of devices and printers so far.
#[derive(Clone, Copy)]
struct Position {
    table: Option<LastTable>,
    devices: usize,
    printers: usize,
}

impl Position {
    /// The position before the first statement.
    fn start() -> Position {
        Position {
            table: Some(LastTable::Root),
            devices: 0,
            printers: 0,
        }
    }

    /// Enters the table of a name.
    fn enter(&mut self, name: &str) {
        self.table = None;
        if name == "device" {
            self.table = Some(LastTable::Device(self.devices));
            self.devices = self.devices.saturating_add(1);
        } else if name == "printer" {
            self.table = Some(LastTable::Printer(self.printers));
            self.printers = self.printers.saturating_add(1);
        }
    }

    /// Takes a statement into account. Returns its key, if it is of a table and may be meant for another key.
    fn similar_in(
        &mut self,
        alloc: Global,
        table: LastTable,
        key: &str,
        statement: &Statement<'_>,
    ) -> Option<Similar> {
        match &statement.content {
            Content::Header(name) => {
                self.enter(name.as_deref().unwrap_or(""));
                None
            }
            Content::Entry {
                key: Some(written),
                ..
            } if self.table == Some(table) && is_meant(written, key) => Some(Similar {
                line: statement.line,
                key: String::from_str(alloc, written).ok()?,
            }),
            Content::Entry { .. } => None,
        }
    }
}

impl<'a> Place<'a> {
    /// Creates a place with nothing found.
    fn new() -> Place<'a> {
        Place {
            line: None,
            value: None,
            name: None,
            has_key: false,
        }
    }

    /// Sets the line of the key.
    fn has_line(&mut self, line: usize) {
        if !self.has_key {
            self.line = Some(line);
            self.has_key = true;
        }
    }

    /// Takes an entry of the table into account.
    fn add_entry(&mut self, line: usize, is_wanted: bool, is_name: bool, value: &'a str) {
        if is_wanted {
            self.has_line(line);
            self.value = Some(value);
        }
        if is_name {
            self.name = Some(value);
        }
    }

    /// Takes a statement into account.
    fn add(&mut self, at: &mut Position, table: LastTable, key: &str, statement: &Statement<'a>) {
        let line = statement.line;
        match &statement.content {
            Content::Header(name) => {
                let name = name.as_deref().unwrap_or("");
                at.enter(name);
                if at.table == Some(table) {
                    self.line = Some(line);
                } else if table == LastTable::Root && name == key {
                    self.has_line(line);
                }
            }
            Content::Entry {
                key: written,
                value,
            } if at.table == Some(table) => {
                let written = written.as_deref().unwrap_or("");
                self.add_entry(line, written == key, written == "name", value);
            }
            Content::Entry { .. } => {}
        }
    }
}

/// A key that may be meant for another.
#[derive(Drop)]
pub(crate) struct Similar {
    pub(crate) line: usize,
    pub(crate) key: String,
}

/// Returns whether a key is meant for another: they differ in case, or in `-` for `_`.
fn is_meant(written: &str, key: &str) -> bool {
    let (written, key) = (written.as_bytes(), key.as_bytes());
    written.len() == key.len()
        && written.iter().zip(key).all(|(one, other)| one.eq_ignore_ascii_case(other)
            || *one == b'-' && *other == b'_')
}

/// Finds a key of a table that may be meant for another, which the table lacks.
pub(crate) fn similar_key(
    alloc: Global,
    text: &str,
    table: LastTable,
    key: &str,
) -> Option<Similar> {
    let mut statements = Statements::of(alloc, text);
    let mut at = Position::start();
    for _statement in 0..text.len() {
        let Some(statement) = statements.next() else {
            return None;
        };
        let found = at.similar_in(alloc, table, key, &statement);
        if found.is_some() {
            return found;
        }
    }
    None
}

/// Finds the places in a text of a table and one of its keys.
pub(crate) fn place_of<'a>(alloc: Global, text: &'a str, table: LastTable, key: &str) -> Place<'a> {
    let mut place = Place::new();
    let mut statements = Statements::of(alloc, text);
    let mut at = Position::start();
    for _statement in 0..text.len() {
        match statements.next() {
            Some(statement) => place.add(&mut at, table, key, &statement),
            None => return place,
        }
    }
    place
}
