//! The asks of connections, handled one at a time.
ghost use Rattle.std.specs.Prelude.{◌≡◌};
ghost use Rattle.server.specs.World.{moved};
ghost use Rattle.server.specs.Acting.{ActsOn, place_of, place_of_part};
ghost use Rattle.server.specs.Polling.{Serves};
ghost use Rattle.server.specs.Refinement.{Refines, RefinesNotified};

use crate::engine::Engine;
use base_types::Moment;
use connections::table::{ConnectionAsk, next};
use connections::{AllocFailure, Ask, Part};
use dispatcher::{AllocationSite, DeviceRefusal, Observer};
use plan_prices::Planner;
use wires::{Wire, WireId};

/// The connection that asks: its key, and its number on the wire.
#[derive(Clone, Copy)]
pub(crate) struct EventOrigin {
    pub key: usize,
    pub id: WireId,
}

/// The asks of connections.
impl<P: Planner + Drop> Engine<P> {
    /// Handles what the connection under a key asks, until it has no ask. The broken connections are closed
    /// after each ask.
    pub(crate) fn serve<W: Wire + Observer>(&mut self, moment: Moment, key: usize, world: &mut W)
        ensures { Refines (moved W.polled W.notified) (Serves moment key) world.old self.old world.new self.new }
    {
        while let Some(asked) = next(&mut self.connections, key, self.core.settings()) {
            let ConnectionAsk { id, ask } = asked;
            self.act(moment, EventOrigin { key, id }, ask, world);
            self.close_broken(moment, world);
        }
    }

    /// Handles an ask of a connection.
    #[tactic(auto, using(crate::proofs::Joins::acts_as, crate::proofs::Joins::acts_nothing, crate::proofs::Joins::acts_stranger, crate::proofs::Joins::acts_fault))]
    fn act<N: Observer>(&mut self, moment: Moment, origin: EventOrigin, ask: Ask, notes: &mut N)
        ensures { RefinesNotified N.notified (ActsOn moment origin.key origin.id ask) notes.old self.old notes.new self.new }
    {
        match ask {
            Ask::Nothing => {}
            Ask::Broke(growth) => notes.refused(place_of(growth), Some(origin.id)),
            Ask::Event(client, event) => self.happen(moment, origin, client, event, notes),
            Ask::Unread(request) => self.drop_request(origin, request, notes),
            Ask::Lost(part) => self.decline(place_of_part(part), origin, notes),
            Ask::Hello(device, name) => self.handle_hello(moment, origin, device, name, notes),
            Ask::Report(device, report) => {
                self.report_now(moment, device, report, notes);
            }
            Ask::UnknownDevice(name) => {
                notes.device_refused(origin.id, DeviceRefusal::UnknownName(name));
            }
            Ask::Fault(device) => notes.device_refused(origin.id, DeviceRefusal::Fault(device)),
        }
    }
}

/// The allocation site at which memory for a growth of a connection was refused.
fn place_of(growth: AllocFailure) -> AllocationSite
    ensures { result ≡ place_of growth }
{
    match growth {
        AllocFailure::Input => AllocationSite::Feed,
        AllocFailure::Output => AllocationSite::Enqueue,
    }
}

/// The allocation site at which a part of an LPD client's job was lost.
fn place_of_part(part: Part) -> AllocationSite
    ensures { result ≡ place_of_part part }
{
    match part {
        Part::File => AllocationSite::File,
        Part::Job => AllocationSite::Event,
    }
}
