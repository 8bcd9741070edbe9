//! The printed text of a server's notes.

use crate::playing::Shows;
use base_types::Text;
use dispatcher::{AllocationSite, DeviceRefusal, Dispatched, Observer};
use events::Cancel;
use server::{LoggedNote, NoteLog};
use std::alloc::{AllocError, Global};
use std::mem;
use traces::{put_cancel, put_dispatch};
use wires::WireId;

/// An observer that stores the lines of each dispatch and of each cancel, as a trace prints them; or all
/// notes, for a log.
#[derive(Drop)]
pub(crate) struct Observation {
    alloc: Global,
    shows: Shows,
    names: Vec<Text>,
    text: Vec<u8>,
    notes: NoteLog,
    lost: bool,
    /// Whether no plan is made in the turn: each dispatch is one that was refused memory.
    unplanned: bool,
}

impl Observer for Observation {
    ghost notified = { λ old note new. Unit {0} };

    fn dispatched(&mut self, made: &Dispatched<'_>) {
        match self.shows {
            Shows::Happenings { texts } => self.put_dispatched(made, texts),
            Shows::Log => self.notes.dispatched(made),
            Shows::Verdict => {}
        }
    }

    fn canceled(&mut self, cancel: Cancel) {
        match self.shows {
            Shows::Happenings { .. } => self.put_canceled(cancel),
            Shows::Log => self.notes.canceled(cancel),
            Shows::Verdict => {}
        }
    }

    fn device_refused(&mut self, id: WireId, why: DeviceRefusal) {
        if self.shows == Shows::Log {
            self.notes.device_refused(id, why);
        }
    }

    fn refused(&mut self, place: AllocationSite, _id: Option<WireId>) {
        if !self.unplanned || place != AllocationSite::Dispatch {
            self.lost = true;
        }
    }
}

impl Observation {
    /// Creates an observer without notes. `names` are those of the devices.
    pub(crate) fn new(alloc: Global, shows: Shows, names: Vec<Text>) -> Observation {
        Observation {
            alloc,
            shows,
            names,
            text: Vec::new(alloc),
            notes: NoteLog::new(alloc),
            lost: false,
            unplanned: false,
        }
    }

    /// Sets whether no plan is made in the turn that comes.
    pub(crate) fn set_unplanned(&mut self, unplanned: bool) {
        self.unplanned = unplanned;
    }

    /// Appends the lines of a dispatch.
    fn put_dispatched(&mut self, made: &Dispatched<'_>, texts: bool) {
        let put = put_dispatch(
            self.alloc,
            &mut self.text,
            texts,
            &self.names,
            made.plan(),
            made.started(),
        );
        self.lost = self.lost || put.is_err();
    }

    /// Appends the line of a cancel.
    fn put_canceled(&mut self, cancel: Cancel) {
        let put = put_cancel(self.alloc, &mut self.text, &self.names, cancel);
        self.lost = self.lost || put.is_err();
    }

    /// Returns whether memory was refused, to the server or for the text.
    pub(crate) fn is_lost(&self) -> bool {
        self.lost
    }

    /// Removes and returns the lines.
    pub(crate) fn take(&mut self) -> Vec<u8> {
        mem::replace(&mut self.text, Vec::new(self.alloc))
    }

    /// Removes and returns the notes. The error is that memory for them was refused.
    pub(crate) fn take_notes(&mut self) -> Result<Vec<LoggedNote>, AllocError> {
        self.notes.take()
    }
}
