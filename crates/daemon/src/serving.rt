//! A server over the system's sockets.
ghost use Rattle.std.specs.Prelude.{◌≡◌, ◌&&◌, [], IfOk, IsFalse, Some, is_some, true, false};
ghost use Rattle.settings_file.specs.Settings.{MeetsLimits};
ghost use Rattle.print_room.specs.Opening.{opening};
ghost use Rattle.server.specs.Refinement.{IsAt};
ghost use Rattle.journal.specs.declared.gate.Pass.TheVariants.{All};
ghost use Rattle.daemon.specs.Serving.{calls_of, Idles, Rests, TakesTurn, ServesTurn, AddsLines};
ghost use Rattle.daemon.specs.Journaling.{FilesTurn, NotesEnd, AddsComments};

use crate::busy_poll::BusyPoll;
use crate::clock::time_of_zero;
use crate::observation_flags::ObservationFlags;
use crate::recorder::{Recorder, Tape};
use base_types::Moment;
use dispatcher::{AllocationSite, DeviceRefusal, Dispatched, Observer};
use events::Cancel;
use journal::{
    Gate, JournaledEngine, Mark, Pass, Pausable, quiet_turns_change_nothing, turns_append_to_files,
};
use plan_solver::AugmentingPaths;
use recordings::RecordingWire;
use server::{Engine, NoteLog};
use server_log::LogFormatter;
use settings_file::Settings;
use sockets::{ConnectionEvent, ConnectionLog, Listening, Sockets};
use std::alloc::{AllocError, Global};
use std::io;
use std::time::{Clock, Duration};
use wires::WireId;

/// A server: its engine, its sockets, the formatter of its log, and the busy polling before its waits.
#[derive(Drop)]
pub struct Server {
    pub(crate) alloc: Global,
    pub(crate) engine: JournaledEngine,
    pub(crate) wire: RecordingWire<Gate<Sockets>>,
    formatter: LogFormatter,
    busy_poll: BusyPoll,
    /// Whether the notes are those of a journal. It has no turn in which memory was refused: such a turn can't be
    /// taken again.
    pub(crate) journaled: bool,
    /// The last mark of the journal.
    marked: Option<Mark>,
}

/// The notes that a turn gave an observer, and the connections that came and went.
#[derive(Drop)]
pub(crate) struct Taken<N: Observer> {
    observer: N,
    visits: Result<Vec<ConnectionEvent>, AllocError>,
}

/// The events of a log of connections. Empty if no log was kept.
fn all_of(
    alloc: Global,
    visits: Option<ConnectionLog>,
) -> Result<Vec<ConnectionEvent>, AllocError> {
    match visits {
        Some(visits) => visits.all(),
        None => Ok(Vec::new(alloc)),
    }
}

/// Returns whether something happened in a turn: a tick came, the observer was notified, or the notes grew.
fn has_happened(ticks: bool, notified: bool, before: usize, after: usize) -> bool
    ensures { IsFalse result → (ticks ≡ false) × (notified ≡ false) × (after ≡ before) }
{
    ticks || notified || after != before
}

/// Returns whether something happened in a turn that a log may show: a tick came, the observer was notified, or a
/// connection came or went.
fn shows(ticks: bool, notified: bool, visits: &Result<Vec<ConnectionEvent>, AllocError>) -> bool {
    match visits {
        Ok(visits) => ticks || notified || !visits.is_empty(),
        Err(_) => ticks || notified,
    }
}

impl Server {
    /// Creates a server over sockets that listen. Its engine is at the empty trace. The only error is out of
    /// memory.
    pub fn new(alloc: Global, sockets: Sockets, settings: Settings) -> Result<Server, AllocError>
        requires { MeetsLimits settings }
        ensures reaches { IfOk result (λ server. IsAt (opening settings 1) [] server.engine) }
        ensures calls { IfOk result (λ server. calls_of server ≡ sockets.history.calls) }
    {
        let names = settings.device_names(alloc)?;
        let planner = Pausable::new(AugmentingPaths::new(alloc));
        let engine = Engine::new(alloc, settings, planner)?;
        let formatter = LogFormatter::new(alloc, names, &engine);
        Ok(Server::over(alloc, sockets, engine, formatter))
    }

    /// Creates a server of an engine, over sockets that listen.
    pub(crate) fn over(
        alloc: Global,
        sockets: Sockets,
        engine: JournaledEngine,
        formatter: LogFormatter,
    ) -> Server
        ensures engine { result.engine ≡ engine }
        ensures calls { calls_of result ≡ sockets.history.calls }
    {
        Server {
            alloc,
            engine,
            wire: RecordingWire::new(alloc, Gate::new(alloc, sockets)),
            formatter,
            busy_poll: BusyPoll::new(),
            journaled: false,
            marked: None,
        }
    }

    /// The addresses at which the server listens.
    pub fn listening(&self) -> io::Result<Vec<Listening>> {
        self.wire.wire.wire.listening()
    }

    /// Dates the log and the recording by the system's clock: it is the moment `now` now. The error is the clock's.
    pub fn date(&mut self, clock: &impl Clock, now: Moment) -> io::Result<()>
        ensures { Idles self.old self.new }
    {
        let zero = time_of_zero(clock, now)?;
        self.formatter.set_zero(zero);
        Ok(())
    }

    /// Starts noting each turn for a recording. The server has taken no turn yet.
    pub(crate) fn record(&mut self, heads: bool)
        ensures idles { Idles self.old self.new }
        ensures notes { self.new.wire.notes ≡ record { lines = Some []; heads = heads } }
    {
        self.wire.notes.begin(heads);
    }

    /// Passes the notes to a recorder after a turn at a moment. Returns the ms for which the server may then
    /// wait, at most `most`.
    pub(crate) fn pass_notes<T: Tape>(
        &mut self,
        recorder: &mut Recorder<'_, T>,
        moment: Moment,
        most: u64,
    ) -> u64
        ensures { Idles self.old self.new }
    {
        recorder.write_if_due(&mut self.wire.notes, moment);
        recorder.time_left(&self.wire.notes, moment, most)
    }

    /// Passes the notes to a recorder after the last turn.
    pub(crate) fn pass_last_notes<T: Tape>(&mut self, recorder: &mut Recorder<'_, T>)
        ensures { Idles self.old self.new }
    {
        recorder.finish(&mut self.wire.notes);
    }

    /// Takes one turn of the engine. For each trace at which the engine was, it is now at that trace
    /// followed by this turn. The calls of the turn are exactly those that the engine made of the sockets.
    pub fn turn(&mut self, moment: Moment)
        ensures { ServesTurn All moment self.old self.new }
    {
        let _taken = self.take(Pass::All, moment, NoObserver, false);
    }

    /// Takes one turn of the engine, and returns the turn's lines of the log. The error is that memory for
    /// the lines was refused; the turn is taken nevertheless.
    pub fn turn_logged(&mut self, moment: Moment) -> Result<Vec<u8>, AllocError>
        ensures { ServesTurn All moment self.old self.new }
    {
        let mut taken = self.take(Pass::All, moment, NoteLog::new(self.alloc), true);
        self.lines_of(moment, &mut taken)
    }

    /// The lines of the log about a turn.
    pub(crate) fn lines_of(
        &mut self,
        moment: Moment,
        taken: &mut Taken<NoteLog>,
    ) -> Result<Vec<u8>, AllocError>
        ensures { Rests self.old self.new }
    {
        let notes = taken.observer.take()?;
        match &taken.visits {
            Ok(visits) => self.formatter.lines(moment, visits, &notes, &self.engine),
            Err(_) => Err(AllocError),
        }
    }

    /// Takes one turn of the engine, of which only some calls reach the sockets, and notes it. `logs` indicates whether
    /// a log is written.
    pub(crate) fn take<N: Observer>(
        &mut self,
        pass: Pass,
        moment: Moment,
        observer: N,
        logs: bool,
    ) -> Taken<N>
        ensures turn { ServesTurn pass moment self.old self.new }
        ensures filed { FilesTurn self.old self.new }
    {
        self.log_visits(logs);
        let ticks = self.engine.is_tick_due(moment);
        let before = self.wire.notes.text().len();
        let seen = self.run_turn(pass, moment, observer);
        let visits = self.visits(moment, ticks, seen.notified);
        let after = self.wire.notes.text().len();
        quiet_turns_change_nothing();
        turns_append_to_files();
        if has_happened(ticks, seen.notified, before, after) {
            self.note_turn(moment, &visits, seen.refused);
        }
        Taken {
            observer: seen.observer,
            visits,
        }
    }

    /// Takes one turn of the engine, which notifies the observer of its notes.
    fn run_turn<N: Observer>(
        &mut self,
        pass: Pass,
        moment: Moment,
        observer: N,
    ) -> ObservationFlags<N>
        ensures { TakesTurn pass moment result.notified self.old self.new }
    {
        let mut witness = ObservationFlags::new(observer);
        self.wire.wire.wire.set_moment(moment);
        self.wire.wire.set(pass);
        self.engine.turn(&mut self.wire, &mut witness, moment);
        witness
    }

    /// Starts a log of connections if the turns are noted, or a log is written.
    fn log_visits(&mut self, logs: bool)
        ensures { Rests self.old self.new }
    {
        if logs || self.is_recorded() {
            self.wire.wire.wire.keep_visits(self.alloc);
        }
    }

    /// Takes the log of connections of a turn, and begins the turn's lines. The only error is out of memory.
    fn visits(
        &mut self,
        moment: Moment,
        ticks: bool,
        notified: bool,
    ) -> Result<Vec<ConnectionEvent>, AllocError>
        ensures { Rests self.old self.new }
    {
        let visits = all_of(self.alloc, self.wire.wire.wire.take_visits());
        self.formatter
            .begin(moment, shows(ticks, notified, &visits));
        visits
    }

    /// Returns whether the turns are noted.
    pub(crate) fn is_recorded(&self) -> bool
        ensures { result ≡ is_some self.now.wire.notes.lines }
    {
        self.wire.notes.keeps()
    }

    /// Returns whether a turn can't be noted: memory was refused in it, and the notes are those of a journal.
    fn loses(&self, refused: bool) -> bool
        ensures { result ≡ (refused && self.now.journaled) }
    {
        refused && self.journaled
    }

    /// Notes the connections that came and went in a turn, and the end of the turn, if turns are noted. A journal
    /// keeps no lines any more if memory was refused in the turn.
    fn note_turn(
        &mut self,
        moment: Moment,
        visits: &Result<Vec<ConnectionEvent>, AllocError>,
        refused: bool,
    )
        ensures idles { Idles self.old self.new }
        ensures notes { AddsLines self.old.wire.notes self.new.wire.notes }
        ensures journal { self.old.journaled ≡ true → NotesEnd moment self.old.wire.notes self.new.wire.notes }
    {
        if self.loses(refused) {
            self.wire.notes.stop();
            return;
        }
        if !self.is_recorded() {
            return;
        }
        self.note_comments(visits);
        self.wire.notes.end_turn(moment, refused);
    }

    /// Notes the date, the connections that came and went, and the mark of a journal, as comments. If memory is refused, no
    /// comment is noted, and a journal keeps no lines any more.
    fn note_comments(&mut self, visits: &Result<Vec<ConnectionEvent>, AllocError>)
        ensures idles { Idles self.old self.new }
        ensures notes { AddsComments self.old.wire.notes self.new.wire.notes }
    {
        match self.comments_of(visits) {
            Ok(comments) => self.comment(&comments),
            Err(_) if self.journaled => self.wire.notes.stop(),
            Err(_) => {}
        }
    }

    /// Notes comments, if there are any.
    fn comment(&mut self, comments: &[u8])
        ensures idles { Idles self.old self.new }
        ensures notes { AddsComments self.old.wire.notes self.new.wire.notes }
    {
        if !comments.is_empty() {
            self.wire.notes.comment(comments);
        }
    }

    /// The comments on the date, the connections that came and went, and the mark of a journal if it is another.
    fn comments_of(
        &mut self,
        visits: &Result<Vec<ConnectionEvent>, AllocError>,
    ) -> Result<Vec<u8>, AllocError>
        ensures { Rests self.old self.new }
    {
        let mut comments = self.visits_of(visits)?;
        if self.journaled {
            self.put_mark(&mut comments)?;
        }
        Ok(comments)
    }

    /// The comments on the date and on the connections that came and went; none on these if memory for their
    /// log was refused.
    fn visits_of(
        &self,
        visits: &Result<Vec<ConnectionEvent>, AllocError>,
    ) -> Result<Vec<u8>, AllocError> {
        match visits {
            Ok(visits) => self.formatter.comments(visits),
            Err(_) => self.formatter.comments(&[]),
        }
    }

    /// Appends the mark of the journal, if it is another than the last.
    fn put_mark(&mut self, comments: &mut Vec<u8>) -> Result<(), AllocError>
        ensures { Rests self.old self.new }
    {
        let mark = Mark::of(&self.engine);
        if self.marked != Some(mark) {
            mark.put(self.alloc, comments)?;
            self.marked = Some(mark);
        }
        Ok(())
    }

    /// Waits until the poll reports an event, or this time has passed.
    pub(crate) fn wait(&mut self, most: Duration) -> io::Result<()>
        ensures { Rests self.old self.new }
    {
        self.wire.wire.wire.wait(most)
    }

    /// Waits until the poll reports an event, a peer has been silent for too long, or `most` ms have passed.
    /// It doesn't wait if the turns since the last call had work to do. Then the system is asked for events,
    /// but while bytes are left to read, only once in a ms.
    pub fn wait_for_work(&mut self, most: u64) -> io::Result<()>
        ensures { Rests self.old self.new }
    {
        let sockets = &mut self.wire.wire.wire;
        if sockets.take_worked() {
            self.busy_poll.works();
            return if sockets.take_more() && sockets.has_just_waited() {
                Ok(())
            } else {
                sockets.wait(Duration::ZERO)
            };
        }
        if self.busy_poll.is_due() {
            let found = sockets.look()?;
            self.busy_poll.looked(found);
            if found {
                return Ok(());
            }
        }
        let pause = sockets.time_left(most);
        sockets.wait(Duration::from_millis(pause))
    }
}

/// An observer that ignores its notes.
#[derive(Drop)]
pub(crate) struct NoObserver;

impl Observer for NoObserver {
    ghost notified = { λ old note new. Unit {0} };

    fn dispatched(&mut self, _made: &Dispatched<'_>) {}

    fn canceled(&mut self, _cancel: Cancel) {}

    fn device_refused(&mut self, _id: WireId, _why: DeviceRefusal) {}

    fn refused(&mut self, _place: AllocationSite, _id: Option<WireId>) {}
}
