//! The closings of connections.
ghost use Rattle.std.specs.Prelude.{◌≡◌, false, ℕ, IfSome, IfNone, IsTrue};
ghost use Rattle.server.specs.World.{moved};
ghost use Rattle.server.specs.Closing.{ClosesBroken};
ghost use Rattle.server.specs.Polling.{Fails, EndsOne};
ghost use Rattle.connections.specs.Slots.{IsFirstBroken, broken_at};
ghost use Rattle.server.specs.Refinement.{Refines, RefinesQuietly, RefinesAnyFate};

use crate::engine::Engine;
use base_types::{Moment, Report};
use connections::table::{break_off, close, is_broken, is_done};
use dispatcher::Observer;
use plan_prices::Planner;
use wires::Wire;

/// The closings of connections that are broken, and of connections that are done.
impl<P: Planner + Drop> Engine<P> {
    /// The least key of a broken connection, if a connection is broken.
    fn first_broken(&self) -> Option<usize>
        ensures some { IfSome result (IsFirstBroken self.now.slots) }
        ensures none { IfNone result ((key : ℕ) → broken_at self.now.slots key ≡ false) }
    {
        for key in 0..self.keys() {
            if is_broken(&self.connections, key) {
                return Some(key);
            }
        }
        None
    }

    /// Returns whether no connection is broken. Connections break between turns where memory is refused.
    pub fn has_no_broken(&self) -> bool
        ensures { IsTrue result → (key : ℕ) → broken_at self.now.slots key ≡ false }
    {
        self.first_broken().is_none()
    }

    /// Closes the connection under a key. If a device gave its name on the connection, the core gets the report
    /// that the device is gone.
    fn close<W: Wire + Observer>(&mut self, moment: Moment, key: usize, world: &mut W)
        ensures { RefinesAnyFate (moved W.polled W.notified) moment key world.old self.old world.new self.new }
    {
        if let Some(device) = close(&mut self.connections, key, world) {
            self.report_now(moment, device, Report::Gone, world);
        }
    }

    /// Closes the broken connection of the least key, again and again, until no connection is broken.
    pub(crate) fn close_broken<W: Wire + Observer>(&mut self, moment: Moment, world: &mut W)
        ensures { RefinesQuietly (moved W.polled W.notified) (ClosesBroken moment) world.old self.old world.new self.new }
    {
        while let Some(key) = self.first_broken() {
            self.close(moment, key, world);
        }
    }

    /// Marks the connection under a key as broken, and closes the broken connections.
    pub(crate) fn fail<W: Wire + Observer>(&mut self, moment: Moment, key: usize, world: &mut W)
        ensures { RefinesQuietly (moved W.polled W.notified) (Fails moment key) world.old self.old world.new self.new }
    {
        break_off(&mut self.connections, key);
        self.close_broken(moment, world);
    }

    /// Closes the connection under a key if it is done, and then the broken connections.
    pub(crate) fn end_one<W: Wire + Observer>(&mut self, moment: Moment, key: usize, world: &mut W)
        ensures { Refines (moved W.polled W.notified) (EndsOne moment key) world.old self.old world.new self.new }
    {
        if is_done(&self.connections, key) {
            self.close(moment, key, world);
            self.close_broken(moment, world);
        }
    }
}
