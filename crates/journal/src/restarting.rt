//! The loss of the connections of a server that was restarted.
ghost use Rattle.std.specs.Prelude.{◌≡◌, IfOk, Some, length, min};
ghost use Rattle.journal.specs.Resuming.{pending, LosesAll, RestartsAs};

use crate::fault::PlayFault;
use crate::lost_wire::LostWire;
use crate::restart_witness::RestartWitness;
use crate::resumption::{JournaledEngine, Resumption, turn_paused};
use crate::storage::StoredLines;
use base_types::Moment;
use recordings::{RecordedText, RecordingWire};
use std::alloc::Global;

/// An engine that was restarted, and whose connections were lost.
#[derive(Drop)]
pub struct Restarted {
    pub engine: JournaledEngine,
    /// The text of the turn in which the connections were lost; empty if none was open.
    pub text: Vec<u8>,
    /// The moment of the last turn.
    pub last: Moment,
    /// The lines of all turns, the last among them.
    pub stored: StoredLines,
}

impl Resumption {
    /// The number of bytes of the turn that hasn't ended, which are to be cut off the file; the greatest number if
    /// there are more.
    pub fn pending(&self) -> usize
        ensures { result ≡ min (length (pending self.now)) usize.MAX }
    {
        let count = self.lines.len().saturating_add(self.comments.len());
        if self.restarted {
            return count.saturating_add(b"restarted\n".len());
        }
        count
    }

    /// Takes a turn in which each connection is lost, if one is open. Lines of a turn that hasn't ended are dropped:
    /// nothing was sent that such a turn decided.
    ///
    /// The error is out of memory. It is the same where a tick is due or a connection is broken before that turn, or a
    /// job begins or a connection stays open in it: no file leads there.
    pub fn restart(self) -> Result<Restarted, PlayFault>
        ensures { IfOk result (RestartsAs self) }
    {
        let Resumption {
            alloc,
            mut engine,
            last,
            mut stored,
            ..
        } = self;
        if engine.is_unconnected() {
            return Ok(Restarted {
                engine,
                text: Vec::new(alloc),
                last,
                stored,
            });
        }
        let text = lose_all(alloc, &mut engine, last)?;
        stored.append(&text);
        Ok(Restarted {
            engine,
            text,
            last,
            stored,
        })
    }
}

/// Has the engine take a turn at a moment in which each connection is lost and no plan is made. Returns the turn's
/// text.
fn lose_all(
    alloc: Global,
    engine: &mut JournaledEngine,
    moment: Moment,
) -> Result<Vec<u8>, PlayFault>
    ensures { IfOk result (λ text. LosesAll engine.old text.items engine.new) }
{
    if engine.is_tick_due(moment) || !engine.has_no_broken() {
        return Err(PlayFault::OutOfMemory);
    }
    let mut wire = RecordingWire::new(alloc, LostWire::new());
    let mut witness = RestartWitness::new();
    wire.notes.begin(false);
    turn_paused(alloc, engine, &mut wire, &mut witness, moment);
    if witness.began || witness.refused || !wire.wire.all_failed || !engine.is_unconnected() {
        return Err(PlayFault::OutOfMemory);
    }
    wire.notes.restarted();
    wire.notes.end_turn(moment, false);
    kept_text(alloc, &wire.notes)
}

/// The text of notes whose lines are kept.
fn kept_text(alloc: Global, notes: &RecordedText) -> Result<Vec<u8>, PlayFault>
    ensures { IfOk result (λ text. notes.now.lines ≡ Some text.items) }
{
    if !notes.keeps() {
        return Err(PlayFault::OutOfMemory);
    }
    Ok(Vec::from_slice(alloc, notes.text())?)
}
