//! The start of a server from a directory.
ghost use Rattle.std.specs.Prelude.{IfOk, OnOk};
ghost use Rattle.journal.specs.File.{KeepsPlayed};
ghost use Rattle.settings_file.specs.Settings.{MeetsLimits};
ghost use Rattle.spool_directory.specs.Starting.{IsPlaying, HasStarted};

use crate::directory::Directory;
use crate::draft::DraftFile;
use crate::fault::SpoolFault;
use crate::listing::Listing;
use crate::opening::SpoolDirectory;
use crate::playing::PlayedFiles;
use crate::renewing::Carried;
use crate::spool_files::{JournalPlace, SpoolFiles, SpoolOptions, cut};
use base_types::{JobId, Moment};
use job_objects::JobState;
use journal::{
    JournaledEngine, Restarted, ResubmissionFault, Resumption, SavedJob, StoredLines, Which,
    saved_jobs,
};
use settings_file::Settings;
use std::mem;

/// A server that starts.
#[derive(Drop)]
pub struct StartingServer<'a> {
    pub engine: JournaledEngine,
    /// The moment of the last turn.
    pub last: Moment,
    pub files: SpoolFiles<'a>,
}

/// The settings that a server is given.
#[derive(Clone, Copy)]
struct Given<'a, 'b> {
    text: &'b [u8],
    options: SpoolOptions<'a>,
}

/// Returns whether a base has the settings of a text.
fn has_settings(base: &[u8], text: &[u8]) -> bool {
    base == text || base.strip_suffix(b"\n") == Some(text)
}

/// Has the engine lose all connections.
fn restart(resumption: Resumption) -> Result<Restarted, SpoolFault>
    requires { IsPlaying resumption }
    ensures { IfOk result (λ restarted. HasStarted restarted.stored.lines restarted.engine) }
{
    match resumption.restart() {
        Ok(restarted) => Ok(restarted),
        Err(_) => Err(SpoolFault::OutOfMemory),
    }
}

/// Returns whether the job of an id is aborted.
fn is_aborted(engine: &JournaledEngine, id: JobId) -> bool {
    match engine.job(id) {
        Some(job) => matches!(job.state, JobState::Aborted),
        None => false,
    }
}

/// The place after files that were played.
fn place_of(played: &PlayedFiles) -> JournalPlace {
    JournalPlace {
        base: played.base,
        begun: played.head.began,
        last: played.last,
        ending: played.ending,
    }
}

impl Directory<'_> {
    /// The fault that all ids of jobs are used.
    fn all_ids_used(&self) -> SpoolFault {
        match String::from_str(self.alloc(), self.path) {
            Ok(path) => SpoolFault::AllIdsUsed(path),
            Err(_) => SpoolFault::OutOfMemory,
        }
    }

    /// What a server takes over from the engine of another, and the id of its first job.
    fn carry_over(
        &self,
        engine: &JournaledEngine,
        reprint: bool,
    ) -> Result<(JobId, Carried), SpoolFault> {
        let Some(first) = engine.next_job_id() else {
            return Err(self.all_ids_used());
        };
        match Carried::of(self.alloc(), engine, reprint) {
            Ok(carried) => Ok((first, carried)),
            Err(_) => Err(SpoolFault::OutOfMemory),
        }
    }

    /// Has an engine lose all connections. Gives the jobs, too, that devices had in hand.
    fn restarted(&self, resumption: Resumption) -> Result<(Restarted, Vec<SavedJob>), SpoolFault>
        requires { IsPlaying resumption }
        ensures { IfOk result (λ made. HasStarted made.0.stored.lines made.0.engine) }
    {
        let Ok(mut in_hand) = saved_jobs(self.alloc(), resumption.engine(), Which::InHand) else {
            return Err(SpoolFault::OutOfMemory);
        };
        match restart(resumption) {
            Ok(restarted) => {
                in_hand.retain(|job| is_aborted(&restarted.engine, job.id));
                Ok((restarted, in_hand))
            }
            Err(fault) => Err(fault),
        }
    }

    /// Submits the jobs that devices had in hand again, if asked, else reports them.
    fn end_jobs(
        &self,
        in_hand: Vec<SavedJob>,
        reprint: bool,
        engine: &mut JournaledEngine,
        moment: Moment,
        draft: &mut DraftFile<'_>,
    ) -> Result<(), ResubmissionFault>
        ensures { OnOk result (KeepsPlayed draft.old.stored.lines engine.old draft.new.stored.lines engine.new) }
    {
        if reprint {
            return self.submit(in_hand, engine, moment, draft);
        }
        self.tell_in_hand(&in_hand);
        Ok(())
    }

    /// Begins the file after a place in which connections were lost, after the end of the last file was cut off.
    fn next_draft(
        &self,
        listing: &Listing,
        place: JournalPlace,
        text: &[u8],
        version: &str,
    ) -> Result<DraftFile<'_>, SpoolFault> {
        let directory = *self;
        if let Err(error) = cut(directory, place) {
            return Err(directory.refused_trace("cut off the end of", place.last, error));
        }
        let next = DraftFile::next(directory, listing.last, place.last, text, version);
        directory.or_refused("write to", directory.path, next)
    }
}

impl<'a> SpoolDirectory<'a> {
    /// Starts a server with these settings from the journal of the directory.
    ///
    /// Where jobs are unfinished that came under the same settings, the server's connections are lost: the jobs that
    /// waited wait, and those that devices had in hand are aborted, or submitted again, if the options ask for it. Else
    /// the journal begins anew with these settings, and takes over the pauses of printers. Jobs that waited under other
    /// settings are submitted again; the documents of those that these settings refuse are kept in files of their own.
    /// What becomes of each job is reported before the files of the directory change.
    ///
    /// The engine is at the trace of the stored lines.
    ///
    /// # Errors
    ///
    /// Where a file isn't as a server left it, nothing is written or removed. Where this server does something else than
    /// the file records, since another version wrote it, the journal begins anew if no job was unfinished at its end.
    pub fn start(
        self,
        settings_text: &[u8],
        settings: Settings,
        options: SpoolOptions<'a>,
    ) -> Result<StartingServer<'a>, SpoolFault>
        requires { MeetsLimits settings }
        ensures { IfOk result (λ start. HasStarted start.files.stored.lines start.engine) }
    {
        let directory = self.directory;
        let given = Given {
            text: settings_text,
            options,
        };
        let listing = directory.or_refused("list", directory.path, directory.list())?;
        match directory.last_base(&listing)? {
            Some(base) => self.start_after(&listing, base, settings, given),
            None => {
                let first = JobId::new(JobId::FIRST).unwrap();
                let carried = Carried::nothing(directory.alloc());
                self.begin(&listing, first, settings, given, carried)
            }
        }
    }

    /// Starts a server after the journal that begins with the base with a number.
    fn start_after(
        self,
        listing: &Listing,
        base: u32,
        settings: Settings,
        given: Given<'a, '_>,
    ) -> Result<StartingServer<'a>, SpoolFault>
        requires { MeetsLimits settings }
        ensures { IfOk result (λ start. HasStarted start.files.stored.lines start.engine) }
    {
        let played = match self.directory.play(listing, base) {
            Ok(played) => played,
            Err(fault) => return self.begin_quiet(listing, base, settings, given, fault),
        };
        let unfinished = played.resumption.engine().unfinished_jobs();
        if unfinished > 0 && has_settings(&played.head.settings, given.text) {
            return self.go_on(listing, played, given.options);
        }
        self.renew(listing, played, settings, given)
    }

    /// Starts a server after the journal that begins with the base with a number, and isn't played for this fault: if a
    /// server of another version wrote it, and at its end no job was unfinished.
    fn begin_quiet(
        self,
        listing: &Listing,
        base: u32,
        settings: Settings,
        given: Given<'a, '_>,
        fault: SpoolFault,
    ) -> Result<StartingServer<'a>, SpoolFault>
        requires { MeetsLimits settings }
        ensures { IfOk result (λ start. HasStarted start.files.stored.lines start.engine) }
    {
        let directory = self.directory;
        if !fault.is_of_other(given.options.version) {
            return Err(fault);
        }
        match directory.quiet_end(listing, base) {
            Some(first) => {
                let carried = Carried::nothing(directory.alloc());
                self.begin(listing, first, settings, given, carried)
            }
            None => Err(fault),
        }
    }

    /// Starts a server with other settings, or without jobs, after files that were played. The engine that played them
    /// is dropped first, so that documents are in memory once.
    fn renew(
        self,
        listing: &Listing,
        played: PlayedFiles,
        settings: Settings,
        given: Given<'a, '_>,
    ) -> Result<StartingServer<'a>, SpoolFault>
        requires { MeetsLimits settings }
        ensures { IfOk result (λ start. HasStarted start.files.stored.lines start.engine) }
    {
        let carried = self
            .directory
            .carry_over(played.resumption.engine(), given.options.reprint);
        drop(played);
        let (first, carried) = carried?;
        self.begin(listing, first, settings, given, carried)
    }

    /// Starts a server whose first job gets the id `first`, and which takes over what is carried over.
    fn begin(
        self,
        listing: &Listing,
        first: JobId,
        settings: Settings,
        given: Given<'a, '_>,
        carried: Carried,
    ) -> Result<StartingServer<'a>, SpoolFault>
        requires { MeetsLimits settings }
        ensures { IfOk result (λ start. HasStarted start.files.stored.lines start.engine) }
    {
        let directory = self.directory;
        let options = given.options;
        let (engine, base) = directory.renew(
            listing.last,
            given.text,
            settings,
            first,
            carried,
            options.version,
        )?;
        directory.tell_waiting(&engine);
        match SpoolFiles::begin(self, listing, base, options) {
            Ok(files) => Ok(StartingServer {
                engine,
                last: Moment::start(),
                files,
            }),
            Err(fault) => Err(fault),
        }
    }

    /// Starts a server whose jobs are those of files that were played.
    fn go_on(
        self,
        listing: &Listing,
        played: PlayedFiles,
        options: SpoolOptions<'a>,
    ) -> Result<StartingServer<'a>, SpoolFault>
        requires { IsPlaying played.resumption }
        ensures { IfOk result (λ start. HasStarted start.files.stored.lines start.engine) }
    {
        let place = place_of(&played);
        match self.directory.restarted(played.resumption) {
            Ok((mut restarted, in_hand)) => {
                match self.continue_after(listing, place, &mut restarted, in_hand, options) {
                    Ok(files) => Ok(StartingServer {
                        engine: restarted.engine,
                        last: restarted.last,
                        files,
                    }),
                    Err(fault) => Err(fault),
                }
            }
            Err(fault) => Err(fault),
        }
    }

    /// Begins the file that goes on after a place for an engine that was restarted. Returns the files of the journal.
    fn continue_after(
        self,
        listing: &Listing,
        place: JournalPlace,
        restarted: &mut Restarted,
        in_hand: Vec<SavedJob>,
        options: SpoolOptions<'a>,
    ) -> Result<SpoolFiles<'a>, SpoolFault>
        requires { HasStarted restarted.old.stored.lines restarted.old.engine }
        ensures { IfOk result (λ files. HasStarted files.stored.lines restarted.new.engine) }
    {
        let directory = self.directory;
        let next = directory.next_draft(listing, place, &restarted.text, options.version);
        let mut next = match next {
            Ok(next) => next.after(mem::replace(&mut restarted.stored, StoredLines::new())),
            Err(fault) => return Err(fault),
        };
        if let Err(fault) = directory.end_jobs(
            in_hand,
            options.reprint,
            &mut restarted.engine,
            restarted.last,
            &mut next,
        ) {
            return Err(next.abandon(fault));
        }
        directory.tell_waiting(&restarted.engine);
        SpoolFiles::go_on(self, listing, place, next, options)
    }
}
