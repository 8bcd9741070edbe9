//! The steps of a script.

use adapter_printers::Peer;

/// What happens at a step. The adapter has to take the steps in their order: a call that belongs to a later step
/// has to wait, as a call to a slow peer does.
#[derive(Clone, Copy)]
pub(crate) enum Act {
    /// The adapter connects to a peer, and the connection is made.
    Connects(Peer),
    /// The adapter tries to connect to a peer, in vain.
    Misses(Peer),
    /// The adapter writes the step's bytes.
    Writes(Peer),
    /// The adapter writes a request of IPP with this operation, which contains the step's bytes.
    Asks(u16),
    /// The adapter writes the beginning of a request of IPP, which ends with the step's bytes.
    Begins,
    /// A peer sends the step's bytes.
    Sends(Peer),
    /// The adapter ends its side of a connection.
    Finishes(Peer),
    /// A peer ends its side of a connection.
    Ends(Peer),
    /// A connection breaks.
    Breaks(Peer),
    /// From now on so many written bytes count as not acknowledged.
    Holds(u64),
    /// The adapter's standard input is closed.
    Closes,
    /// So many ms pass, in which the adapter writes nothing to the server, and connects to nobody.
    Passes(u64),
}

impl Act {
    /// Whether a step of this kind may have bytes.
    pub(crate) fn has_bytes(self) -> bool {
        matches!(
            self,
            Act::Writes(_) | Act::Asks(_) | Act::Begins | Act::Sends(_)
        )
    }
}

/// A step, with the bytes that are written, asked or sent at it.
#[derive(Drop)]
pub(crate) struct Step {
    pub(crate) act: Act,
    pub(crate) bytes: Vec<u8>,
}
