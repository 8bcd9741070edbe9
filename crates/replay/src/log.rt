//! The printed text of an engine's notes.
ghost use Rattle.std.specs.Prelude.{◌≡◌, [], Some, IfOk};
ghost use Rattle.dispatcher.specs.Dispatched.{plan_of, started_of};
ghost use Rattle.dispatcher.specs.Notes.{Planned, Canceled};
ghost use Rattle.replay.specs.Log.{note_text};

use base_types::{MemoryLog, Text};
use dispatcher::{AllocationSite, DeviceRefusal, Dispatched, Observer};
use events::Cancel;
use std::alloc::{AllocError, Global};
use std::marker::Model;
use traces::{put_cancel, put_dispatch};
use wires::WireId;

/// An observer that stores the printed text of each dispatch and of each cancel. In clauses it is a record of
/// whether the texts of plans are printed, the names of the devices, and the text so far, which is `None` if
/// memory was refused.
#[derive(Drop)]
pub struct Log {
    alloc: Global,
    texts: bool,
    names: Vec<Text>,
    observed: MemoryLog<u8>,
}

impl Model for Log {
    ghost use Rattle.replay.specs.Log.{LogRecord};

    ghost Value = { LogRecord };

    ghost view = { λ l. record { texts = l.texts; names = l.names.items; observed = l.observed } };
}

impl Observer for Log {
    ghost use Rattle.replay.specs.Log.{LogsNote};

    ghost notified = { LogsNote };

    fn dispatched(&mut self, made: &Dispatched<'_>) {
        match self.dispatch_text(made) {
            Ok(text) => self.observed.keep_all(text),
            Err(_) => self.observed.lose(),
        }
    }

    fn canceled(&mut self, cancel: Cancel) {
        match self.cancel_text(cancel) {
            Ok(text) => self.observed.keep_all(text),
            Err(_) => self.observed.lose(),
        }
    }

    fn device_refused(&mut self, _id: WireId, _why: DeviceRefusal) {}

    fn refused(&mut self, _place: AllocationSite, _id: Option<WireId>) {}
}

impl Log {
    /// Creates an empty log.
    pub fn new(alloc: Global, texts: bool, names: Vec<Text>) -> Log
        ensures { result ≡ record { texts = texts; names = names.items; observed = Some [] } }
    {
        Log {
            alloc,
            texts,
            names,
            observed: MemoryLog::new(alloc),
        }
    }

    /// The names of the devices.
    pub fn names(&self) -> &[Text]
        ensures { result.now ≡ self.now.names }
    {
        &self.names
    }

    /// Removes and returns the text. The error is that memory for a part of it was refused.
    pub fn take(&mut self) -> Result<Vec<u8>, AllocError>
        ensures { IfOk result (λ text. (self.old.observed ≡ Some text.items) × (self.new ≡ record self.old { observed = Some [] })) }
    {
        self.observed.take()
    }

    /// Returns the text of a dispatch. The only error is out of memory.
    fn dispatch_text(&self, made: &Dispatched<'_>) -> Result<Vec<u8>, AllocError>
        ensures { IfOk result (λ text. text.items ≡ note_text self.now.texts self.now.names (Planned (plan_of made.now) (started_of made.now))) }
    {
        let mut text = Vec::new(self.alloc);
        put_dispatch(
            self.alloc,
            &mut text,
            self.texts,
            &self.names,
            made.plan(),
            made.started(),
        )?;
        Ok(text)
    }

    /// Returns the text of a cancel. The only error is out of memory.
    fn cancel_text(&self, cancel: Cancel) -> Result<Vec<u8>, AllocError>
        ensures { IfOk result (λ text. text.items ≡ note_text self.now.texts self.now.names (Canceled cancel)) }
    {
        let mut text = Vec::new(self.alloc);
        put_cancel(self.alloc, &mut text, &self.names, cancel)?;
        Ok(text)
    }
}
