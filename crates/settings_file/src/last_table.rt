//! The progress of reading a text of settings.

/// The table of a text of settings that was read last. The fault of a refused text is in that table.
#[derive(Clone, Copy, PartialEq, Eq)]
pub enum LastTable {
    /// The root table, which is read first.
    Root,
    /// The table of the device at a place.
    Device(usize),
    /// The table of the printer at a place.
    Printer(usize),
}

impl LastTable {
    /// Goes on to the table of the next device.
    pub(crate) fn next_device(&mut self) {
        *self = match *self {
            LastTable::Device(place) => LastTable::Device(place.saturating_add(1)),
            LastTable::Root | LastTable::Printer(_) => LastTable::Device(0),
        };
    }

    /// Goes on to the table of the next printer.
    pub(crate) fn next_printer(&mut self) {
        *self = match *self {
            LastTable::Printer(place) => LastTable::Printer(place.saturating_add(1)),
            LastTable::Root | LastTable::Device(_) => LastTable::Printer(0),
        };
    }
}
