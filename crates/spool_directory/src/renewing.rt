//! What a server takes over from the one before.
ghost use Rattle.std.specs.Prelude.{◌≡◌, [], IfOk, OnOk};
ghost use Rattle.settings_file.specs.Settings.{MeetsLimits};
ghost use Rattle.print_room.specs.Opening.{opening};
ghost use Rattle.server.specs.Refinement.{IsAt};
ghost use Rattle.journal.specs.File.{KeepsPlayed};
ghost use Rattle.spool_directory.specs.Starting.{HasStarted};

use crate::directory::Directory;
use crate::draft::DraftFile;
use crate::fault::SpoolFault;
use base_types::{JobId, Moment, Text};
use journal::{
    JournaledEngine, Pausable, ResubmissionFault, SavedJob, Which, pause_printers, paused_printers,
    resubmit, saved_jobs,
};
use plan_solver::AugmentingPaths;
use server::Engine;
use settings_file::Settings;
use std::alloc::{AllocError, Global};

/// What a server takes over from the one before.
#[derive(Drop)]
pub(crate) struct Carried {
    /// The names of the printers that are paused.
    pub(crate) paused: Vec<Text>,
    /// The jobs that are submitted again, by rising id.
    pub(crate) jobs: Vec<SavedJob>,
    /// The jobs that devices had in hand, and that aren't submitted again.
    pub(crate) in_hand: Vec<SavedJob>,
}

impl Carried {
    /// What the first server of a directory takes over.
    pub(crate) fn nothing(alloc: Global) -> Carried {
        Carried {
            paused: Vec::new(alloc),
            jobs: Vec::new(alloc),
            in_hand: Vec::new(alloc),
        }
    }

    /// What a server takes over from an engine. `reprint` is whether it takes over the jobs that devices had in hand.
    pub(crate) fn of(
        alloc: Global,
        engine: &JournaledEngine,
        reprint: bool,
    ) -> Result<Carried, AllocError> {
        let (again, left) = if reprint {
            (
                saved_jobs(alloc, engine, Which::Unfinished)?,
                Vec::new(alloc),
            )
        } else {
            (
                saved_jobs(alloc, engine, Which::Waiting)?,
                saved_jobs(alloc, engine, Which::InHand)?,
            )
        };
        Ok(Carried {
            paused: paused_printers(alloc, engine)?,
            jobs: again,
            in_hand: left,
        })
    }
}

/// The engine of a server without jobs, whose first job gets the id `first`.
fn fresh_engine(
    alloc: Global,
    settings: Settings,
    first: JobId,
) -> Result<JournaledEngine, ResubmissionFault>
    requires { MeetsLimits settings }
    ensures { IfOk result (IsAt (opening settings first) []) }
{
    let planner = Pausable::new(AugmentingPaths::new(alloc));
    match Engine::starting_at(alloc, settings, planner, first) {
        Ok(engine) => Ok(engine),
        Err(_) => Err(ResubmissionFault::OutOfMemory),
    }
}

impl Directory<'_> {
    /// Has an engine that has taken no turn pause the printers of these names. Reports those that aren't paused then.
    pub(crate) fn pause(
        &self,
        names: &[Text],
        engine: &mut JournaledEngine,
        draft: &mut DraftFile<'_>,
    ) -> Result<(), ResubmissionFault>
        ensures { OnOk result (KeepsPlayed draft.old.stored.lines engine.old draft.new.stored.lines engine.new) }
    {
        let left = pause_printers(self.alloc(), names, engine, Moment::start(), draft)?;
        self.tell_unpaused(&left);
        Ok(())
    }

    /// Submits jobs again at a moment. Reports what became of each, and keeps the documents of those that are refused.
    pub(crate) fn submit(
        &self,
        jobs: Vec<SavedJob>,
        engine: &mut JournaledEngine,
        moment: Moment,
        draft: &mut DraftFile<'_>,
    ) -> Result<(), ResubmissionFault>
        ensures { OnOk result (KeepsPlayed draft.old.stored.lines engine.old draft.new.stored.lines engine.new) }
    {
        let resubmitted = resubmit(self.alloc(), jobs, engine, moment, draft)?;
        if let Err(error) = self.keep_refused(&resubmitted) {
            draft.fail(error);
            return Err(ResubmissionFault::NotStored);
        }
        self.tell_resubmitted(&resubmitted);
        Ok(())
    }

    /// Has an engine that has taken no turn pause the printers and take the jobs that are carried over.
    fn take_over(
        &self,
        carried: Carried,
        engine: &mut JournaledEngine,
        base: &mut DraftFile<'_>,
    ) -> Result<(), ResubmissionFault>
        ensures { OnOk result (KeepsPlayed base.old.stored.lines engine.old base.new.stored.lines engine.new) }
    {
        self.pause(&carried.paused, engine, base)?;
        self.tell_in_hand(&carried.in_hand);
        self.submit(carried.jobs, engine, Moment::start(), base)
    }

    /// The engine of a server with these settings, whose first job gets the id `first`. It has paused the printers and
    /// taken the jobs that are carried over.
    fn renewed_engine(
        &self,
        settings: Settings,
        first: JobId,
        carried: Carried,
        base: &mut DraftFile<'_>,
    ) -> Result<JournaledEngine, ResubmissionFault>
        requires limits { MeetsLimits settings }
        requires empty { base.old.stored.lines ≡ [] }
        ensures { IfOk result (λ engine. HasStarted base.new.stored.lines engine) }
    {
        let mut engine = match fresh_engine(self.alloc(), settings, first) {
            Ok(engine) => engine,
            Err(fault) => return Err(fault),
        };
        match self.take_over(carried, &mut engine, base) {
            Ok(()) => Ok(engine),
            Err(fault) => Err(fault),
        }
    }

    /// As [`Directory::renewed_engine`], with a base after the file with the number `last`.
    pub(crate) fn renew(
        &self,
        last: u32,
        settings_text: &[u8],
        settings: Settings,
        first: JobId,
        carried: Carried,
        version: &str,
    ) -> Result<(JournaledEngine, DraftFile<'_>), SpoolFault>
        requires { MeetsLimits settings }
        ensures { IfOk result (λ made. HasStarted made.1.stored.lines made.0) }
    {
        let directory = *self;
        let mut base = match DraftFile::base(directory, last, settings_text, first, version) {
            Ok(base) => base,
            Err(error) => return Err(directory.refused("write to", directory.path, error)),
        };
        match directory.renewed_engine(settings, first, carried, &mut base) {
            Ok(engine) => Ok((engine, base)),
            Err(fault) => Err(base.abandon(fault)),
        }
    }
}
