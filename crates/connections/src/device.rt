//! A device's side of a connection: the device gives its name, and then sends reports.
ghost use Rattle.std.specs.Prelude.{◌≡◌, OnOk, OnErr, Some, None, false};
ghost use Rattle.settings_file.specs.Settings.{device_named};
ghost use Rattle.connections.specs.Steps.{StepsHello};
ghost use Rattle.connections.specs.Peers.{IsNewDevice, IsFedDevice, NextDevice, HandlesReport, HandlesReportIfAny, link_step};

use crate::ask::{AllocFailure, Ask};
use crate::step::Step;
use base_types::{DeviceId, Report, Text};
use device_link::{LinkError, LinkReader};
use settings_file::Settings;
use std::alloc::{AllocError, Global};
use std::marker::Model;

/// A device, with the state of its stream.
#[derive(Drop)]
pub struct Device {
    reader: LinkReader,
    /// The device that gave its name.
    device: Option<DeviceId>,
}

impl Model for Device {
    ghost use Rattle.connections.specs.States.{DeviceState};

    ghost Value = { DeviceState };

    ghost view = { λ t. record { reader = t.reader; device = t.device } };
}

impl Device {
    /// Creates a device of which nothing was read.
    pub fn new(alloc: Global) -> Device
        ensures { IsNewDevice result }
    {
        Device {
            reader: LinkReader::new(alloc),
            device: None,
        }
    }

    /// Feeds the next bytes of the wire to the reader. The only error is out of memory, and none of the bytes
    /// is taken.
    pub fn feed(&mut self, segment: &[u8]) -> Result<(), AllocError>
        ensures ok { OnOk result (IsFedDevice segment.now self.old self.new) }
        ensures err { OnErr result (self.new ≡ self.old) }
    {
        self.reader.feed(segment)
    }

    /// The device that gave its name.
    pub fn device(&self) -> Option<DeviceId>
        ensures { result ≡ self.now.device }
    {
        self.device
    }

    /// Forgets the device, since it has another connection.
    pub fn supersede(&mut self)
        ensures { self.new ≡ record self.old { device = None } }
    {
        self.device = None;
    }

    /// Returns the step for the next report of the stream if it is whole, or for the first fault.
    #[tactic(auto, using(crate::proofs::Readers::report_acted_on))]
    #[inline(never)]
    pub fn next(&mut self, settings: &Settings) -> Option<Step>
        ensures { NextDevice (device_named settings.now) result self.old self.new }
    {
        match self.reader.next_report() {
            Ok(report) => self.handle_whole(report, settings),
            Err(error) => Some(link_step(error, self.device)),
        }
    }

    /// Returns the step for a report that was just taken off the stream, if it is whole.
    fn handle_whole(&mut self, report: Option<Report>, settings: &Settings) -> Option<Step>
        ensures { HandlesReportIfAny (device_named settings.now) report result self.old self.new }
    {
        match report {
            Some(report) => Some(self.handle(report, settings)),
            None => None,
        }
    }

    /// Returns the step for a report.
    fn handle(&mut self, report: Report, settings: &Settings) -> Step
        ensures { HandlesReport (device_named settings.now) report result self.old self.new }
    {
        match self.device {
            Some(device) => asks(Ask::Report(device, report)),
            None => self.await_hello(report, settings),
        }
    }

    /// Returns the step for the first report, which has to be a name.
    fn await_hello(&mut self, report: Report, settings: &Settings) -> Step
        requires { self.old.device ≡ None }
        ensures { HandlesReport (device_named settings.now) report result self.old self.new }
    {
        match report {
            Report::Hello(name) => self.take_name(name, settings),
            _ => Step::Breaks(Ask::Fault(None)),
        }
    }

    /// Returns the step for a name, and remembers the device that it names.
    fn take_name(&mut self, name: Text, settings: &Settings) -> Step
        requires { self.old.device ≡ None }
        ensures reader { self.new.reader ≡ self.old.reader }
        ensures comes { StepsHello name (device_named settings.now name) result self.new.device }
    {
        match settings.device_named(name.as_bytes()) {
            Some(device) => {
                self.device = Some(device);
                asks(Ask::Hello(device, name))
            }
            None => Step::Breaks(Ask::UnknownDevice(name)),
        }
    }
}

/// The step with an ask to the server; the connection goes on.
fn asks(ask: Ask) -> Step
    ensures { result ≡ Step.Asks ask false }
{
    Step::Asks { ask, last: false }
}

/// The step for the first fault of the stream, or for refused memory for a line.
fn link_step(error: LinkError, device: Option<DeviceId>) -> Step
    ensures { result ≡ link_step error device }
{
    match error {
        LinkError::Fault(_) => Step::Breaks(Ask::Fault(device)),
        LinkError::OutOfMemory => Step::Breaks(Ask::Broke(AllocFailure::Input)),
    }
}
