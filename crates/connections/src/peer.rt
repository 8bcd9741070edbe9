//! The peer of a connection, whose kind is that of the door.
ghost use Rattle.std.specs.Prelude.{◌≡◌, OnOk, OnErr};
ghost use Rattle.connections.specs.Peers.{IsNewPeer, IsFedPeer, NextPeer, closes_of, device_of, unnamed};

use crate::device::Device;
use crate::ipp_client::IppClient;
use crate::lpd_client::LpdClient;
use crate::step::Step;
use base_types::DeviceId;
use settings_file::Settings;
use std::alloc::{AllocError, Global};
use wires::Door;

/// The peer of a connection, with the state of its stream.
#[derive(Drop)]
pub enum Peer {
    Ipp(IppClient),
    Lpd(LpdClient),
    Device(Device),
}

impl Peer {
    /// Creates the peer of a connection accepted at a door. Nothing was read of it.
    pub fn new(alloc: Global, door: Door) -> Peer
        ensures { IsNewPeer door result }
    {
        match door {
            Door::Ipp => Peer::Ipp(IppClient::new(alloc)),
            Door::Lpd => Peer::Lpd(LpdClient::new(alloc)),
            Door::Devices => Peer::Device(Device::new(alloc)),
        }
    }

    /// Feeds the next bytes of the wire to the reader. The only error is out of memory, and none of the bytes
    /// is taken.
    pub fn feed(&mut self, segment: &[u8]) -> Result<(), AllocError>
        ensures ok { OnOk result (IsFedPeer segment.now self.old self.new) }
        ensures err { OnErr result (self.new ≡ self.old) }
    {
        match self {
            Peer::Ipp(client) => client.feed(segment),
            Peer::Lpd(client) => client.feed(segment),
            Peer::Device(device) => device.feed(segment),
        }
    }

    /// Returns the step for the next item of the stream, if one is whole, or for the first fault.
    pub fn next(&mut self, settings: &Settings) -> Option<Step>
        ensures { NextPeer settings.now result self.old self.new }
    {
        match self {
            Peer::Ipp(client) => client.next(),
            Peer::Lpd(client) => client.next(settings),
            Peer::Device(device) => device.next(settings),
        }
    }

    /// Returns whether the connection closes after the reply to the last request.
    pub fn closes(&self) -> bool
        ensures { result ≡ closes_of self.now }
    {
        match self {
            Peer::Ipp(client) => client.closes(),
            Peer::Lpd(_) | Peer::Device(_) => false,
        }
    }

    /// The device that gave its name.
    pub fn device(&self) -> Option<DeviceId>
        ensures { result ≡ device_of self.now }
    {
        match self {
            Peer::Ipp(_) | Peer::Lpd(_) => None,
            Peer::Device(device) => device.device(),
        }
    }

    /// Forgets the device, if the peer is one, since it has another connection.
    pub fn supersede(&mut self)
        ensures { self.new ≡ unnamed self.old }
    {
        if let Peer::Device(device) = self {
            device.supersede();
        }
    }
}
