//! An engine that takes the turns of a file again.
ghost use Rattle.std.specs.Prelude.{◌≡◌, ◌++◌, [], Some, IfOk, OnOk, IsTrue, true, codes};
ghost use Rattle.settings_file.specs.Settings.{MeetsLimits};
ghost use Rattle.print_room.specs.Opening.{opening};
ghost use Rattle.recordings.specs.Lines.{IsLineOf, turn_line};
ghost use Rattle.recordings.specs.Noting.{are_comments, restarted_line};
ghost use Rattle.server.specs.Polls.{both};
ghost use Rattle.server.specs.Refinement.{RefinesTurn};
ghost use Rattle.journal.specs.File.{restart_line};
ghost use Rattle.journal.specs.Resuming.{Resumes, Extends, TakesTurn, StartsTurn};

use crate::fault::PlayFault;
use crate::pausable::Pausable;
use crate::restart_witness::RestartWitness;
use crate::storage::StoredLines;
use base_types::{JobId, Moment};
use dispatcher::Observer;
use plan_solver::AugmentingPaths;
use recordings::{Entry, RecordingWire, ReplayWire, are_comments, read_entry};
use server::Engine;
use settings_file::Settings;
use std::alloc::{AllocError, Global};
use wires::Wire;

/// The engine of a server with a journal.
pub type JournaledEngine = Engine<Pausable<AugmentingPaths>>;

/// An engine that takes the turns of a file again. It makes the calls that the file contains, and no others, or the
/// file is refused.
#[derive(Drop)]
pub struct Resumption {
    pub(crate) alloc: Global,
    pub(crate) engine: JournaledEngine,
    pub(crate) wire: RecordingWire<ReplayWire>,
    /// The lines of the calls of the turn that hasn't ended, and after them its comments.
    pub(crate) lines: Vec<u8>,
    pub(crate) comments: Vec<u8>,
    /// Whether the turn that hasn't ended is one in which a restarted server lost its connections.
    pub(crate) restarted: bool,
    /// The moment of the last turn; the start before the first.
    pub(crate) last: Moment,
    /// The lines of the turns that the engine took.
    pub(crate) stored: StoredLines,
}

impl Resumption {
    /// Creates an engine that has taken no turn, with settings within the limits. The first job gets the id
    /// `first`. The only error is out of memory.
    pub fn new(alloc: Global, settings: Settings, first: JobId) -> Result<Resumption, AllocError>
        requires { MeetsLimits settings }
        ensures { IfOk result (Resumes (opening settings first) []) }
    {
        let planner = Pausable::new(AugmentingPaths::new(alloc));
        let engine = Engine::starting_at(alloc, settings, planner, first)?;
        let mut wire = RecordingWire::new(alloc, ReplayWire::new(alloc));
        wire.notes.begin(false);
        Ok(Resumption {
            alloc,
            engine,
            wire,
            lines: Vec::new(alloc),
            comments: Vec::new(alloc),
            restarted: false,
            last: Moment::start(),
            stored: StoredLines::new(),
        })
    }

    /// The engine.
    pub fn engine(&self) -> &JournaledEngine
        ensures { result.now ≡ self.now.engine }
    {
        &self.engine
    }

    /// Plays the line of this number, which has no line feed at its end. `Ok` means that the lines so far are
    /// turns that the engine took, and lines of a turn that hasn't ended.
    pub fn play(&mut self, number: u64, line: &[u8]) -> Result<(), PlayFault>
        ensures { OnOk result (Extends (line.now ++ codes "\n") self.old self.new) }
    {
        if line.starts_with(b"#") {
            return self.add_comment(line);
        }
        match read_entry(self.alloc, line)? {
            Some(entry) => self.take(number, line, entry),
            None => Err(PlayFault::BadLine),
        }
    }

    /// Adds a comment to the turn.
    fn add_comment(&mut self, line: &[u8]) -> Result<(), PlayFault>
        ensures { OnOk result (Extends (line.now ++ codes "\n") self.old self.new) }
    {
        if self.restarted {
            return Err(PlayFault::BadLine);
        }
        self.comments.extend_from_slice(line)?;
        self.comments.extend_from_slice(b"\n")?;
        Ok(())
    }

    /// Takes a line.
    fn take(&mut self, number: u64, line: &[u8], entry: Entry) -> Result<(), PlayFault>
        requires { IsLineOf line.now entry }
        ensures { OnOk result (Extends (line.now ++ codes "\n") self.old self.new) }
    {
        match &entry {
            Entry::Turn(moment) => self.take_turn(*moment, line),
            Entry::Restarted => self.set_restarted(),
            Entry::Refused => Err(PlayFault::BadLine),
            _ => self.add_call(number, line, entry),
        }
    }

    /// Adds the line of a call to the turn.
    fn add_call(&mut self, number: u64, line: &[u8], entry: Entry) -> Result<(), PlayFault>
        ensures { OnOk result (Extends (line.now ++ codes "\n") self.old self.new) }
    {
        if self.restarted || !self.comments.is_empty() {
            return Err(PlayFault::BadLine);
        }
        self.lines.extend_from_slice(line)?;
        self.lines.extend_from_slice(b"\n")?;
        self.wire.wire.add(number, entry)?;
        Ok(())
    }

    /// Records that a restarted server lost its connections in this turn.
    fn set_restarted(&mut self) -> Result<(), PlayFault>
        ensures { OnOk result (Extends restarted_line self.old self.new) }
    {
        if self.restarted {
            return Err(PlayFault::BadLine);
        }
        self.restarted = true;
        Ok(())
    }

    /// Takes the turn whose lines were added, at a moment, which this line ends.
    fn take_turn(&mut self, moment: Moment, line: &[u8]) -> Result<(), PlayFault>
        requires { turn_line moment ≡ line.now ++ codes "\n" }
        ensures { OnOk result (Extends (turn_line moment) self.old self.new) }
    {
        if self.is_refused_memory(moment) {
            return Err(PlayFault::OutOfMemory);
        }
        if let Some(stray) = self.wire.wire.end_turn() {
            return Err(PlayFault::Differs(stray));
        }
        if !self.is_noted_so() {
            return Err(PlayFault::NotedOtherwise);
        }
        self.end_turn(moment, line);
        Ok(())
    }

    /// Has the engine take a turn. Returns whether it was refused memory. In a turn in which a restarted server
    /// lost its connections no plan is made.
    fn is_refused_memory(&mut self, moment: Moment) -> bool
        ensures { TakesTurn moment self.old self.new }
    {
        let mut witness = RestartWitness::new();
        if self.restarted {
            turn_paused(
                self.alloc,
                &mut self.engine,
                &mut self.wire,
                &mut witness,
                moment,
            );
            return witness.refused;
        }
        self.engine.turn(&mut self.wire, &mut witness, moment);
        witness.refused || witness.undispatched
    }

    /// Returns whether the calls of the engine were noted as in the lines.
    fn is_noted_so(&self) -> bool
        ensures lines { IsTrue result → self.now.wire.notes.lines ≡ Some self.now.lines.items }
        ensures comments { IsTrue result → are_comments self.now.comments.items ≡ true }
    {
        let notes = &self.wire.notes;
        notes.keeps() && notes.text() == self.lines.as_slice() && are_comments(&self.comments)
    }

    /// The line of a turn in which a restarted server lost its connections, if the turn is one.
    fn restart_text(&self) -> &'static [u8]
        ensures { result.now ≡ restart_line self.now.restarted }
    {
        if self.restarted { b"restarted\n" } else { b"" }
    }

    /// Ends the turn with this line, and begins the next.
    fn end_turn(&mut self, moment: Moment, line: &[u8])
        ensures { StartsTurn line.now self.old self.new }
    {
        let restart = self.restart_text();
        self.stored.append(&self.lines);
        self.stored.append(&self.comments);
        self.stored.append(restart);
        self.stored.append(line);
        self.stored.append(b"\n");
        self.wire.notes.clear();
        self.lines.clear();
        self.comments.clear();
        self.restarted = false;
        self.last = moment;
    }
}

/// Has an engine take a turn in which no plan is made.
pub(crate) fn turn_paused<W: Wire, N: Observer>(
    alloc: Global,
    engine: &mut JournaledEngine,
    wire: &mut W,
    notes: &mut N,
    moment: Moment,
)
    ensures { RefinesTurn (both W.polled N.notified) moment (wire.old, notes.old) engine.old (wire.new, notes.new) engine.new }
{
    let mut paused = Pausable::paused(AugmentingPaths::new(alloc));
    engine.swap_planner(&mut paused);
    engine.turn(wire, notes, moment);
    engine.swap_planner(&mut paused);
}
