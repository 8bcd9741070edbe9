//! A server with a journal: it sends only what turns decided whose lines are stored.
ghost use Rattle.std.specs.Prelude.{◌≡◌, ◌++◌, ℕ, List, [], Some, true, false, IsTrue, IsFalse};
ghost use Rattle.print_room.specs.State.{State};
ghost use Rattle.server.specs.Turn.{Trace};
ghost use Rattle.journal.specs.File.{HasPlayed};
ghost use Rattle.journal.specs.declared.gate.Pass.TheVariants.{Inward, Outward};
ghost use Rattle.daemon.specs.Serving.{calls_of, Idles, ServesTurn};
ghost use Rattle.daemon.specs.Journaling.{IsFiled, KeepsFiled, FilesTurn, SendsStored};

use crate::serving::{NoObserver, Server};
use base_types::{Moment, Text};
use journal::{Gate, JournaledEngine, Pass, Storage, sent_bytes_were_due};
use recordings::RecordingWire;
use server::NoteLog;
use server_log::LogFormatter;
use sockets::Sockets;
use std::alloc::{AllocError, Global};

/// The turns of a server with a journal.
impl Server {
    /// Creates a server of an engine with a journal, over sockets that listen. `names` are those of the devices.
    /// If the engine is at the trace of a file, and the file is stored, the server's trace is filed.
    pub fn journaled(
        alloc: Global,
        sockets: Sockets,
        engine: JournaledEngine,
        names: Vec<Text>,
    ) -> Server
        ensures filed { (opening : State) (stored : List ℕ) → HasPlayed opening stored engine → (trace : Trace) × IsFiled opening trace result stored }
        ensures calls { calls_of result ≡ sockets.history.calls }
    {
        let formatter = LogFormatter::new(alloc, names, &engine);
        let mut server = Server::over(alloc, sockets, engine, formatter);
        server.wire.notes.begin(false);
        server.journaled = true;
        server
    }

    /// Takes a turn in which nothing is sent.
    pub fn read_turn(&mut self, moment: Moment)
        ensures turn { ServesTurn Inward moment self.old self.new }
        ensures filed { FilesTurn self.old self.new }
    {
        let _taken = self.take(Pass::Inward, moment, NoObserver, false);
    }

    /// Takes a turn in which nothing is sent, and returns the turn's lines of the log. The error is that memory
    /// for the lines was refused.
    pub fn read_turn_logged(&mut self, moment: Moment) -> Result<Vec<u8>, AllocError>
        ensures turn { ServesTurn Inward moment self.old self.new }
        ensures filed { FilesTurn self.old self.new }
    {
        let mut taken = self.take(Pass::Inward, moment, NoteLog::new(self.alloc), true);
        self.lines_of(moment, &mut taken)
    }

    /// Returns whether no job is unfinished and no client is connected.
    pub(crate) fn is_quiet(&self) -> bool {
        self.engine.unfinished_jobs() == 0 && !self.engine.has_client()
    }

    /// The engine that takes the turns.
    pub fn engine(&self) -> &JournaledEngine
        ensures { result.now ≡ self.now.engine }
    {
        &self.engine
    }

    /// Ends the server. Its connections are closed, and its sockets listen on.
    pub fn into_sockets(self) -> Sockets
        ensures { result.history ≡ self.wire.wire.wire.history }
    {
        let Server { wire: noted, .. } = self;
        let RecordingWire { wire: gate, .. } = noted;
        let Gate {
            wire: mut sockets,
            ..
        } = gate;
        sockets.close_all();
        sockets
    }

    /// Returns whether bytes wait that the last turn didn't send, since nothing was sent in it, and a socket may take
    /// some of them now. A device that prints slowly has its socket full for most of the time.
    pub fn holds(&self) -> bool {
        let gate = &self.wire.wire;
        let Some(held) = gate.held() else {
            return true;
        };
        held.iter().any(|id| gate.wire.may_write(*id))
    }

    /// The number of bytes of the lines that are kept and not stored.
    pub fn kept(&self) -> usize {
        self.wire.notes.text().len()
    }

    /// Moves the kept lines to a storage. Returns whether no line is kept back now: not if memory for a line was
    /// refused, or the storage takes none.
    pub fn store<T: Storage>(&mut self, storage: &mut T) -> bool
        ensures idles { Idles self.old self.new }
        ensures none { IsTrue result → self.new.wire.notes.lines ≡ Some [] }
        ensures filed { KeepsFiled self.old (T.stored storage.old) self.new (T.stored storage.new) }
    {
        if !self.is_recorded() || !storage.append(self.wire.notes.text()) {
            return false;
        }
        self.wire.notes.clear();
        true
    }

    /// Takes a turn in which nothing comes. All lines are stored, so all that is sent was due by the stored turns.
    /// No turn is taken if a tick is due: what it decides isn't stored yet.
    pub fn write_turn<T: Storage>(&mut self, storage: &T, moment: Moment)
        requires { self.old.wire.notes.lines ≡ Some [] }
        ensures sends { SendsStored self.old (T.stored storage.now) self.new }
        ensures filed { FilesTurn self.old self.new }
    {
        sent_bytes_were_due();
        if self.engine.is_tick_due(moment) {
            return;
        }
        let _taken = self.take(Pass::Outward, moment, NoObserver, false);
    }

    /// As [`Server::write_turn`], and returns the turn's lines of the log. The error is that memory for the lines
    /// was refused.
    pub fn write_turn_logged<T: Storage>(
        &mut self,
        storage: &T,
        moment: Moment,
    ) -> Result<Vec<u8>, AllocError>
        requires { self.old.wire.notes.lines ≡ Some [] }
        ensures sends { SendsStored self.old (T.stored storage.now) self.new }
        ensures filed { FilesTurn self.old self.new }
    {
        sent_bytes_were_due();
        if self.engine.is_tick_due(moment) {
            return Ok(Vec::new(self.alloc));
        }
        let mut taken = self.take(Pass::Outward, moment, NoteLog::new(self.alloc), true);
        self.lines_of(moment, &mut taken)
    }
}
