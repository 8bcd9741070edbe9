//! The asks of a connection to the server.
use base_types::{DeviceId, Report, Text};
use events::Event;

/// The purpose of the memory that was refused to a connection.
#[derive(Clone, Copy, PartialEq, Eq)]
pub enum AllocFailure {
    /// To read the bytes that its peer sends.
    Input,
    /// To enqueue bytes that become due.
    Output,
}

/// The part of an LPD client's job that was lost, since memory for it was refused.
#[derive(Clone, Copy, PartialEq, Eq)]
pub enum Part {
    File,
    Job,
}

/// The client of an event, which decides the form of the reply.
#[derive(Clone, Copy, PartialEq, Eq)]
pub enum Client {
    /// An IPP client, by the request-id of its request.
    Ipp(u32),
    /// An LPD client that submits a job.
    LpdJob,
    /// An LPD client that sends a command. The connection drains after it.
    LpdCommand,
}

/// An ask of a connection to the server, or the end of the connection.
#[derive(Drop)]
pub enum Ask {
    /// Nothing: the connection acted on an item by itself, and may have more items.
    Nothing,
    /// The connection broke, since memory was refused.
    Broke(AllocFailure),
    /// An event of a client, which awaits its reply.
    Event(Client, Event),
    /// A request of an IPP client, by its request-id: memory to read it was refused.
    Unread(u32),
    /// A file or a job of an LPD client was lost. The client awaits the refusal.
    Lost(Part),
    /// A device gave its name.
    Hello(DeviceId, Text),
    /// A report of a device that has given its name.
    Report(DeviceId, Report),
    /// The connection broke, since its peer gave a name that is no device's.
    UnknownDevice(Text),
    /// The connection broke by a fault in its peer's stream. The device, if the peer has given its name.
    Fault(Option<DeviceId>),
}
