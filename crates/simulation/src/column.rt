//! The columns of a list, and their names.

/// A column of a list.
#[derive(Clone, Copy, Debug, PartialEq, Eq)]
pub enum Column {
    /// When the job comes.
    Moment,
    /// The impressions of one copy.
    Impressions,
    /// The octets, by which the impressions are estimated.
    Octets,
    Copies,
    Sides,
    Media,
    Format,
    Finishings,
    Priority,
    /// The name of the job's printer.
    Printer,
}

/// The names of the columns, in lower case and without spaces, `-` and `_`.
const NAMES: [(&str, Column); 19] = [
    ("moment", Column::Moment),
    ("time", Column::Moment),
    ("timestamp", Column::Moment),
    ("datetime", Column::Moment),
    ("impressions", Column::Impressions),
    ("pages", Column::Impressions),
    ("octets", Column::Octets),
    ("bytes", Column::Octets),
    ("copies", Column::Copies),
    ("sides", Column::Sides),
    ("duplex", Column::Sides),
    ("media", Column::Media),
    ("papersize", Column::Media),
    ("paper", Column::Media),
    ("format", Column::Format),
    ("finishings", Column::Finishings),
    ("priority", Column::Priority),
    ("printer", Column::Printer),
    ("printername", Column::Printer),
];

/// The names that select a column only if no other name does: a log with a paper size has the size of
/// the file as `Size`.
const SPARE_NAMES: [(&str, Column); 2] = [("date", Column::Moment), ("size", Column::Media)];

/// The column with a name of a table.
fn column_in(names: &[(&str, Column)], name: &[u8]) -> Option<Column> {
    for &(known, column) in names {
        if known.as_bytes() == name {
            return Some(column);
        }
    }
    None
}

impl Column {
    /// The column with a name, which has no upper case, no spaces, `-` and `_`.
    pub(crate) fn named(name: &[u8]) -> Option<Column> {
        column_in(&NAMES, name)
    }

    /// The column that a name selects if no other name does.
    pub(crate) fn named_in_spare(name: &[u8]) -> Option<Column> {
        column_in(&SPARE_NAMES, name)
    }

    /// The words for the values of the column.
    pub(crate) fn wanted(self) -> &'static str {
        match self {
            Column::Moment =>
                "a moment is a number of ms, 0 to 281,474,976,710,656, or as 08:01:12, 2026-11-28 08:01:12 or 2026-11-28T08:01:12+01:00",
            Column::Impressions => "impressions are 1 to 10,000",
            Column::Octets => "octets are 0 to 16,777,216",
            Column::Copies => "copies are 1 to 999",
            Column::Sides =>
                "sides is one-sided, two-sided-long-edge or two-sided-short-edge, or says yes or no to two sides",
            Column::Media =>
                "no device has this medium, and it is no name of a medium, as iso_a4_210x297mm or A4",
            Column::Format => "format is a media type, of 64 bytes at most",
            Column::Finishings =>
                "finishings are staple, punch and bind, each once, with a space between two",
            Column::Priority => "priority is 1 to 100",
            Column::Printer => "printer is the name of a printer of the settings",
        }
    }
}
