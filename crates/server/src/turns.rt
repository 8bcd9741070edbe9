//! The reads, the writes and the closings of a turn.
ghost use Rattle.std.specs.Prelude.{◌≡◌, ◌≤◌, ℕ, None};
ghost use Rattle.server.specs.World.{moved};
ghost use Rattle.server.specs.Rel.{Each};
ghost use Rattle.server.specs.Polling.{ReadsOne, WritesOne, EndsOne};
ghost use Rattle.server.specs.State.{slot_at};
ghost use Rattle.server.specs.Refinement.{Refines};

use crate::engine::Engine;
use crate::polls::SEGMENT;
use base_types::Moment;
use connections::table::keys;
use dispatcher::Observer;
use plan_prices::Planner;
use wires::Wire;

/// The parts of a turn.
impl<P: Planner + Drop> Engine<P> {
    /// One more than the greatest key of a connection. No connection is open under this key or a greater one.
    pub(crate) fn keys(&self) -> usize
        ensures { (key : ℕ) → result ≤ key → slot_at self.now key ≡ None }
    {
        keys(&self.connections)
    }

    /// Reads each connection once. All reads use the engine's buffer.
    pub(crate) fn read_all<W: Wire + Observer>(
        &mut self,
        moment: Moment,
        keys: usize,
        world: &mut W,
    )
        ensures { Refines (moved W.polled W.notified) (Each keys (ReadsOne moment)) world.old self.old world.new self.new }
    {
        match self.segment.take() {
            Some(mut segment) => {
                self.read_each(moment, keys, &mut segment, world);
                self.segment = Some(segment);
            }
            None => self.read_each(moment, keys, &mut [0; SEGMENT], world),
        }
    }

    /// Reads each connection once, into a buffer.
    #[tactic(auto, using(crate::proofs::Joins::next_more))]
    fn read_each<W: Wire + Observer>(
        &mut self,
        moment: Moment,
        keys: usize,
        segment: &mut [u8; SEGMENT],
        world: &mut W,
    )
        ensures { Refines (moved W.polled W.notified) (Each keys (ReadsOne moment)) world.old self.old world.new self.new }
    {
        for key in 0..keys {
            self.read_one(moment, key, segment, world);
        }
    }

    /// Writes once on each connection with waiting bytes.
    #[tactic(auto, using(crate::proofs::Joins::next_more))]
    pub(crate) fn write_all<W: Wire + Observer>(
        &mut self,
        moment: Moment,
        keys: usize,
        world: &mut W,
    )
        ensures { Refines (moved W.polled W.notified) (Each keys (WritesOne moment)) world.old self.old world.new self.new }
    {
        for key in 0..keys {
            self.write_one(moment, key, world);
        }
    }

    /// Closes each connection that is done.
    #[tactic(auto, using(crate::proofs::Joins::next_more))]
    pub(crate) fn end_all<W: Wire + Observer>(&mut self, moment: Moment, keys: usize, world: &mut W)
        ensures { Refines (moved W.polled W.notified) (Each keys (EndsOne moment)) world.old self.old world.new self.new }
    {
        for key in 0..keys {
            self.end_one(moment, key, world);
        }
    }
}
