//! An observer that logs its notes.
ghost use Rattle.std.specs.Prelude.{◌≡◌, ◌++◌, [], Some, None, IfOk, OnOk, OnErr, map};
ghost use Rattle.std.specs.Option.{option_copied};
ghost use Rattle.dispatcher.specs.Dispatched.{plan_of, started_of};
ghost use Rattle.server.specs.NoteLog.{plan_words, class_word, dispatch_words};

use base_types::{MemoryLog, Priority, Stranded};
use dispatcher::{AllocationSite, DeviceRefusal, Dispatched, Observer, Started};
use events::Cancel;
use plan_prices::{Plan, PlannedClass};
use std::alloc::{AllocError, Global};
use std::marker::Model;
use wires::WireId;

/// A logged note. A dispatch is several logged notes: its plan, if a job was ready, and then each job that
/// begins.
#[derive(Drop)]
pub enum LoggedNote {
    /// A plan was made. The next logged notes are its classes, from the highest priority down, and then its
    /// stranded jobs, by rising id.
    Planned,
    /// A class of the plan, with its priority and the total of its completion times in ms.
    Class { priority: Priority, total: u64 },
    Stranded(Stranded),
    /// A device began a job.
    Began(Started),
    /// A device is asked to cancel a job.
    Canceled(Cancel),
    /// The connection of this number, which is a device's, was refused.
    DeviceRefused(WireId, DeviceRefusal),
    /// Memory was refused at this site, for the connection of this number if it was for one.
    Refused(AllocationSite, Option<WireId>),
}

/// An observer that logs its notes. Once memory for a note is refused, the log is lost and stays lost. In
/// clauses it is the list of the logged notes, or none if the log is lost.
#[derive(Drop)]
pub struct NoteLog {
    alloc: Global,
    notes: MemoryLog<LoggedNote>,
}

impl Model for NoteLog {
    ghost use Rattle.std.specs.Prelude.{List, Option};
    ghost use Rattle.server.specs.declared.note_log.LoggedNote.{LoggedNote};

    ghost Value = { Option (List LoggedNote) };

    ghost view = { λ l. l.notes };
}

impl Observer for NoteLog {
    ghost use Rattle.server.specs.NoteLog.{LogsNote};

    ghost notified = { LogsNote };

    fn dispatched(&mut self, made: &Dispatched<'_>) {
        match notes_of(self.alloc, made) {
            Ok(notes) => self.notes.keep_all(notes),
            Err(_) => self.notes.lose(),
        }
    }

    fn canceled(&mut self, cancel: Cancel) {
        self.notes.keep(LoggedNote::Canceled(cancel));
    }

    fn device_refused(&mut self, id: WireId, why: DeviceRefusal) {
        self.notes.keep(LoggedNote::DeviceRefused(id, why));
    }

    fn refused(&mut self, place: AllocationSite, id: Option<WireId>) {
        self.notes.keep(LoggedNote::Refused(place, id));
    }
}

impl NoteLog {
    /// Creates an empty log. No memory is taken.
    pub fn new(alloc: Global) -> NoteLog
        ensures { result ≡ Some [] }
    {
        NoteLog {
            alloc,
            notes: MemoryLog::new(alloc),
        }
    }

    /// Takes out the logged notes, and leaves an empty log. The error is that the log is lost, and it stays
    /// lost.
    pub fn take(&mut self) -> Result<Vec<LoggedNote>, AllocError>
        ensures ok { IfOk result (λ notes. (self.old ≡ Some notes.items) × (self.new ≡ Some [])) }
        ensures err { OnErr result ((self.old ≡ None) × (self.new ≡ None)) }
    {
        self.notes.take()
    }
}

/// Returns the logged notes of a dispatch. The only error is out of memory.
fn notes_of(alloc: Global, made: &Dispatched<'_>) -> Result<Vec<LoggedNote>, AllocError>
    ensures { IfOk result (λ notes. notes.items ≡ dispatch_words (plan_of made.now) (started_of made.now)) }
{
    let mut notes = Vec::new(alloc);
    put_plan(&mut notes, made.plan())?;
    put_started(&mut notes, made.started())?;
    Ok(notes)
}

/// Appends the logged notes of a plan, if there is one. The only error is out of memory.
fn put_plan(notes: &mut Vec<LoggedNote>, plan: Option<&Plan>) -> Result<(), AllocError>
    ensures { OnOk result (notes.new.items ≡ notes.old.items ++ plan_words (option_copied plan.entry)) }
{
    let Some(plan) = plan else {
        return Ok(());
    };
    notes.push(LoggedNote::Planned)?;
    put_classes(notes, plan.classes())?;
    put_stranded(notes, plan.stranded())
}

fn put_classes(notes: &mut Vec<LoggedNote>, classes: &[PlannedClass]) -> Result<(), AllocError>
    ensures { OnOk result (notes.new.items ≡ notes.old.items ++ map class_word classes.now) }
{
    for class in classes {
        notes.push(LoggedNote::Class {
            priority: class.priority,
            total: class.priced.total,
        })?;
    }
    Ok(())
}

fn put_stranded(notes: &mut Vec<LoggedNote>, stranded: &[Stranded]) -> Result<(), AllocError>
    ensures { OnOk result (notes.new.items ≡ notes.old.items ++ map LoggedNote.Stranded stranded.now) }
{
    for job in stranded {
        notes.push(LoggedNote::Stranded(*job))?;
    }
    Ok(())
}

fn put_started(notes: &mut Vec<LoggedNote>, started: &[Started]) -> Result<(), AllocError>
    ensures { OnOk result (notes.new.items ≡ notes.old.items ++ map LoggedNote.Began started.now) }
{
    for start in started {
        notes.push(LoggedNote::Began(*start))?;
    }
    Ok(())
}
