//! Devices that give their names.
ghost use Rattle.server.specs.Hello.{HandlesHello, TakesOver};
ghost use Rattle.server.specs.Refinement.{RefinesNotified, IsOther};

use crate::acting::EventOrigin;
use crate::engine::Engine;
use base_types::{DeviceId, Moment, Report, Text};
use connections::table::{has_ended, other_key_of, supersede};
use dispatcher::{DeviceRefusal, Observer};
use plan_prices::Planner;

/// The names that devices give on their connections.
impl<P: Planner + Drop> Engine<P> {
    /// Acts on the name that a device gives on the connection of `origin`.
    pub(crate) fn handle_hello<N: Observer>(
        &mut self,
        moment: Moment,
        origin: EventOrigin,
        device: DeviceId,
        name: Text,
        notes: &mut N,
    )
        ensures { RefinesNotified N.notified (HandlesHello moment origin.key origin.id device name) notes.old self.old notes.new self.new }
    {
        match other_key_of(&self.connections, device, origin.key) {
            Some(other) => self.resolve_name(moment, origin, other, device, name, notes),
            None => {
                self.report_now(moment, device, Report::Hello(name), notes);
            }
        }
    }

    /// Acts on the name of a device that has another connection, under the key `other`. If the input of the
    /// other connection has ended, the other connection is superseded; else the connection of `origin` is superseded.
    fn resolve_name<N: Observer>(
        &mut self,
        moment: Moment,
        origin: EventOrigin,
        other: usize,
        device: DeviceId,
        name: Text,
        notes: &mut N,
    )
        requires { IsOther device origin.key other self.old }
        ensures { RefinesNotified N.notified (HandlesHello moment origin.key origin.id device name) notes.old self.old notes.new self.new }
    {
        if has_ended(&self.connections, other) {
            self.replace_connection(moment, other, device, name, notes);
        } else {
            supersede(&mut self.connections, origin.key);
            notes.device_refused(origin.id, DeviceRefusal::Connected(device));
        }
    }

    /// Takes over from the old connection of a device, whose input has ended: the old connection is superseded, and
    /// the core gets the reports that the device is gone and that the device gives its name.
    fn replace_connection<N: Observer>(
        &mut self,
        moment: Moment,
        old: usize,
        device: DeviceId,
        name: Text,
        notes: &mut N,
    )
        ensures { RefinesNotified N.notified (TakesOver moment old device name) notes.old self.old notes.new self.new }
    {
        supersede(&mut self.connections, old);
        self.report_now(moment, device, Report::Gone, notes);
        self.report_now(moment, device, Report::Hello(name), notes);
    }
}
