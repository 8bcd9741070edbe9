//! The ticks of an engine.
ghost use Rattle.std.specs.Prelude.{◌≡◌, max};
ghost use Rattle.server.specs.World.{moved};
ghost use Rattle.server.specs.Turn.{Ticks, TicksIfDue, is_due};
ghost use Rattle.server.specs.Refinement.{Refines, Reports};

use crate::engine::Engine;
use base_types::Moment;
use dispatcher::Observer;
use events::Event;
use plan_prices::Planner;
use wires::Wire;

/// The shortest time from a tick to the next that is due, in ms. A tick is due earlier if the last dispatch
/// was refused memory.
pub const TICK_TIME: u64 = 1000;

/// The ticks. A tick aborts the jobs whose documents stopped coming, and tries a dispatch.
impl<P: Planner + Drop> Engine<P> {
    /// Makes a tick if one is due, and closes the connections that broke.
    pub(crate) fn tick_if_due<W: Wire + Observer>(&mut self, moment: Moment, world: &mut W)
        ensures { Refines (moved W.polled W.notified) (TicksIfDue moment) world.old self.old world.new self.new }
    {
        if self.is_tick_due(moment) {
            self.tick_now(moment, world);
            self.close_broken(moment, world);
        }
    }

    /// Returns whether a tick is due in a turn at a moment: there was no tick yet, the last tick was [`TICK_TIME`]
    /// ago or longer, or the last dispatch was refused memory.
    pub fn is_tick_due(&self, moment: Moment) -> bool
        ensures { result ≡ is_due (max moment self.now.core.last) self.now.ticked self.now.undispatched }
    {
        let now = moment.later(self.core.last());
        match self.ticked {
            Some(last) => {
                now.millis().saturating_sub(last.millis()) >= TICK_TIME || self.undispatched
            }
            None => true,
        }
    }

    /// Makes a tick. Returns whether memory was refused.
    pub(crate) fn tick_now<N: Observer>(&mut self, moment: Moment, notes: &mut N) -> bool
        ensures { Reports N.notified (Ticks moment) notes.old self.old notes.new self.new result }
    {
        self.ticked = Some(moment.later(self.core.last()));
        self.handle(moment, Event::Tick, notes).refused
    }
}
