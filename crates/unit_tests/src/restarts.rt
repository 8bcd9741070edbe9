//! Servers with a journal that are killed after a number of turns and started from it, over a wire and a storage
//! in memory.
use crate::device_sessions::print_room;
use crate::exchanges::{PLAIN, SETTINGS};
use crate::in_memory::got;
use base_types::{JobId, Moment};
use job_objects::JobState;
use journal::{
    Gate, JournaledEngine, Pass, Pausable, PlayFault, Restarted, Resumption, Storage, file_turn,
};
use plan_solver::AugmentingPaths;
use recordings::{LineReader, RecordingWire};
use server::Engine;
use settings_file::read_settings;
use std::alloc::{AllocError, Global};
use std::test::Fail;
use wires::MemoryWire;

/// A storage in memory.
#[derive(Drop)]
struct Stored {
    lines: Vec<u8>,
}

impl Storage for Stored {
    ghost stored = { λ s. s.lines.items };

    fn append(&mut self, lines: &[u8]) -> bool {
        self.lines.extend_from_slice(lines).is_ok()
    }
}

/// A server with a journal, of one printer and one device.
#[derive(Drop)]
struct JournaledServer {
    engine: JournaledEngine,
    wire: RecordingWire<Gate<MemoryWire>>,
    journal: Stored,
}

impl JournaledServer {
    /// Creates a server to which a client prints a job, and a device writes these lines, if there are any.
    fn new(alloc: Global, written: &[u8]) -> Result<JournaledServer, Fail> {
        let peers = peers_of(alloc, written)?;
        let settings = read_settings(alloc, SETTINGS)?;
        let planner = Pausable::new(AugmentingPaths::new(alloc));
        let wire = RecordingWire::new(alloc, Gate::new(alloc, peers));
        match Engine::new(alloc, settings, planner) {
            Ok(engine) => Ok(JournaledServer {
                engine,
                wire,
                journal: Stored {
                    lines: Vec::new(alloc),
                },
            }),
            Err(error) => Err(Fail::from(error)),
        }
    }

    /// Takes turns, in which by turns only reads and only writes reach the wire. Returns whether all are stored.
    fn turns(&mut self, count: usize) -> bool {
        for turn in 0..count {
            let pass = if turn % 2 == 0 {
                Pass::Inward
            } else {
                Pass::Outward
            };
            self.wire.wire.set(pass);
            if !self.turn() {
                return false;
            }
        }
        true
    }

    /// Takes a turn. Returns whether it is stored.
    fn turn(&mut self) -> bool {
        let JournaledServer {
            engine,
            wire,
            journal,
        } = self;
        wire.notes.begin(false);
        file_turn(engine, wire, Moment::start(), journal).is_ok()
    }
}

/// What is left of a server that was killed.
#[derive(Drop)]
struct Killed {
    /// Whether the client has got its reply.
    replied: bool,
    journal: Vec<u8>,
}

impl JournaledServer {
    /// What is left after a number of turns. The server takes no turn after them.
    fn kill_after(&mut self, alloc: Global, turns: usize) -> Result<Killed, Fail> {
        if !self.turns(turns) {
            return Err(Fail::from("a turn isn't stored"));
        }
        Ok(Killed {
            replied: got(&self.wire.wire.wire, 0, PLAIN.answered),
            journal: std::mem::replace(&mut self.journal.lines, Vec::new(alloc)),
        })
    }
}

/// What is left of a server after a number of turns.
fn serve_and_kill(alloc: Global, written: &[u8], turns: usize) -> Result<Killed, Fail> {
    match JournaledServer::new(alloc, written) {
        Ok(mut server) => server.kill_after(alloc, turns),
        Err(fail) => Err(fail),
    }
}

/// A wire with a client that prints a job, and a device that writes these lines, if there are any.
fn peers_of(alloc: Global, written: &[u8]) -> Result<MemoryWire, AllocError> {
    if written.is_empty() {
        return print_room(alloc, PLAIN.sent, &[], (4096, 4096));
    }
    print_room(alloc, PLAIN.sent, &[written], (4096, 4096))
}

/// Why a journal isn't played.
#[derive(Clone, Copy, PartialEq, Eq)]
enum Refusal {
    BadLine,
    Differs,
    NotedOtherwise,
}

/// The refusal of a fault. The error is that memory was refused.
fn refusal_of(fault: &PlayFault) -> Result<Refusal, Fail> {
    match fault {
        PlayFault::BadLine => Ok(Refusal::BadLine),
        PlayFault::Differs(_) => Ok(Refusal::Differs),
        PlayFault::NotedOtherwise => Ok(Refusal::NotedOtherwise),
        PlayFault::OutOfMemory => Err(Fail::from("out of memory")),
    }
}

/// An engine that has taken no turn.
fn begun(alloc: Global) -> Result<Resumption, Fail> {
    let settings = read_settings(alloc, SETTINGS)?;
    let first = JobId::new(JobId::FIRST).unwrap();
    match Resumption::new(alloc, settings, first) {
        Ok(played) => Ok(played),
        Err(error) => Err(Fail::from(error)),
    }
}

/// Plays the lines of a journal. Returns why one of them isn't played.
fn play_lines(
    alloc: Global,
    played: &mut Resumption,
    journal: &[u8],
) -> Result<Option<Refusal>, Fail> {
    let mut reader = journal;
    let mut lines = LineReader::new(alloc, &mut reader)?;
    let mut line = Vec::new(alloc);
    for _ in 0..journal.len() {
        if !lines.read_whole(&mut line)? {
            break;
        }
        if let Err(fault) = played.play(lines.passed(), &line) {
            return Ok(Some(refusal_of(&fault)?));
        }
    }
    Ok(None)
}

/// The state of the first job after a restart, if the job is there; `None` if there is no restart.
fn state_after_restart(played: Resumption) -> Option<Option<JobState>> {
    match played.restart() {
        Ok(restarted) => Some(state_of(&restarted)),
        Err(_) => None,
    }
}

/// The state of the first job, if it is there.
fn state_of(restarted: &Restarted) -> Option<JobState> {
    match restarted.engine.job(JobId::new(JobId::FIRST).unwrap()) {
        Some(job) => Some(job.state),
        None => None,
    }
}

/// The state of the first job after a start from a journal, if the job is there; or why the journal isn't played.
fn resumed(alloc: Global, journal: &[u8]) -> Result<Result<Option<JobState>, Refusal>, Fail> {
    let mut played = begun(alloc)?;
    let refused = play_lines(alloc, &mut played, journal);
    let state = state_after_restart(played);
    match (refused?, state) {
        (Some(refusal), _) => Ok(Err(refusal)),
        (None, Some(state)) => Ok(Ok(state)),
        (None, None) => Err(Fail::from("no restart")),
    }
}

/// A server that is killed after a number of turns.
#[derive(Clone, Copy)]
struct Kill {
    /// The lines that the device writes.
    written: &'static [u8],
    turns: usize,
    /// Whether the client has got its reply.
    replied: bool,
    /// The state of the client's job after the restart, if the job is there.
    state: Option<JobState>,
}

const KILLS: [Kill; 6] = [
    Kill {
        written: b"",
        turns: 0,
        replied: false,
        state: None,
    },
    // The job is stored before its reply is sent.
    Kill {
        written: b"",
        turns: 1,
        replied: false,
        state: Some(JobState::Pending),
    },
    Kill {
        written: b"",
        turns: 2,
        replied: true,
        state: Some(JobState::Pending),
    },
    // A device that doesn't run leaves the job waiting.
    Kill {
        written: b"HELLO A\n",
        turns: 2,
        replied: true,
        state: Some(JobState::Pending),
    },
    // The device has the job in hand. It isn't printed again.
    Kill {
        written: b"HELLO A\nREADY\n",
        turns: 2,
        replied: true,
        state: Some(JobState::Aborted),
    },
    Kill {
        written: b"HELLO A\nREADY\nDONE 1\n",
        turns: 2,
        replied: true,
        state: Some(JobState::Completed),
    },
];

/// Returns whether the client got a reply if it was to get one, and its job is as wanted after the restart.
fn survives(alloc: Global, kill: Kill) -> Result<bool, Fail> {
    let left = serve_and_kill(alloc, kill.written, kill.turns)?;
    Ok(left.replied == kill.replied && resumed(alloc, &left.journal)? == Ok(kill.state))
}

/// What is left of a journal, and what becomes of it.
#[derive(Clone, Copy)]
struct Damage {
    /// The turns of the server, to which a client prints.
    turns: usize,
    /// The number of bytes that are gone from the beginning, and from the end.
    gone: (usize, usize),
    /// The bytes that are added at the end.
    added: &'static [u8],
    /// The state of the client's job after the restart, if the job is there.
    becomes: Result<Option<JobState>, Refusal>,
}

const DAMAGES: [Damage; 5] = [
    // The end of a turn is torn off, or a line is: nothing was sent that the turn decided.
    Damage {
        turns: 1,
        gone: (0, 1),
        added: b"",
        becomes: Ok(None),
    },
    Damage {
        turns: 2,
        gone: (0, 1),
        added: b"",
        becomes: Ok(Some(JobState::Pending)),
    },
    // A line of another program.
    Damage {
        turns: 1,
        gone: (0, 0),
        added: b"GET / HTTP/1.1\n",
        becomes: Err(Refusal::BadLine),
    },
    // The line of the accept is missing, so that the engine reads no connection.
    Damage {
        turns: 1,
        gone: (b"accept ipp 0\n".len(), 0),
        added: b"",
        becomes: Err(Refusal::Differs),
    },
    // A call that the engine doesn't make.
    Damage {
        turns: 1,
        gone: (0, 0),
        added: b"close 0\nturn 0\n",
        becomes: Err(Refusal::Differs),
    },
];

/// The bytes without so many at the beginning and at the end.
fn left_of(bytes: &[u8], gone: (usize, usize)) -> &[u8] {
    let (prefix, end) = gone;
    let kept = bytes.len().saturating_sub(end);
    if kept < prefix {
        return &[];
    }
    &bytes[prefix..kept]
}

/// Returns whether a damaged journal is played or refused as it is to be.
fn is_met(alloc: Global, damage: Damage) -> Result<bool, Fail> {
    let left = serve_and_kill(alloc, b"", damage.turns)?;
    let mut journal = Vec::from_slice(alloc, left_of(&left.journal, damage.gone))?;
    journal.extend_from_slice(damage.added)?;
    Ok(resumed(alloc, &journal)? == damage.becomes)
}

#[test]
fn damaged_journals(rt: HostRuntime) -> Result<(), Fail> {
    for &damage in &DAMAGES {
        assert!(rt; is_met(rt.alloc(), damage)?);
    }
    Ok(())
}

#[test]
fn jobs_survive_a_kill(rt: HostRuntime) -> Result<(), Fail> {
    for &kill in &KILLS {
        assert!(rt; survives(rt.alloc(), kill)?);
    }
    Ok(())
}
