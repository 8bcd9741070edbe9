//! The bytes that become due on a connection.
ghost use Rattle.std.specs.Prelude.{◌≡◌, false};
ghost use Rattle.std.specs.Option.{is_some};
ghost use Rattle.connections.specs.Outgoing.{bytes_of, is_job};
ghost use Rattle.server.specs.Enqueuing.{Enqueues, EnqueuesResponse};
ghost use Rattle.server.specs.Refinement.{RefinesNotified, NotifiedOf};

use crate::engine::Engine;
use connections::Outgoing;
use connections::table::{closes, enqueue};
use dispatcher::{AllocationSite, Observer};
use plan_prices::Planner;
use wires::WireId;

/// Functions that enqueue messages. If memory for the bytes is refused, the observer is notified and the
/// connection breaks.
impl<P: Planner + Drop> Engine<P> {
    /// Enqueues a message other than a job on the connection under a key.
    pub(crate) fn enqueue<N: Observer>(
        &mut self,
        key: usize,
        outgoing: &Outgoing<'_>,
        notes: &mut N,
    )
        requires { is_job outgoing.now ≡ false }
        ensures { RefinesNotified N.notified (Enqueues key (bytes_of outgoing.now)) notes.old self.old notes.new self.new }
    {
        let broke = enqueue(&mut self.connections, key, outgoing);
        notify(broke, notes);
    }

    /// Enqueues an IPP reply on the connection under a key.
    pub(crate) fn enqueue_reply<N: Observer>(&mut self, key: usize, body: &[u8], notes: &mut N)
        ensures { RefinesNotified N.notified (EnqueuesResponse key body.now) notes.old self.old notes.new self.new }
    {
        let closes = closes(&self.connections, key);
        self.enqueue(key, &Outgoing::Reply { closes, body }, notes);
    }
}

/// Notifies the observer of the connection that broke, if one did, since memory for due bytes was refused.
/// Returns whether one broke.
pub(crate) fn notify<N: Observer>(broke: Option<WireId>, notes: &mut N) -> bool
    ensures notified { NotifiedOf N.notified broke notes.old notes.new }
    ensures refused { result ≡ is_some broke }
{
    match broke {
        Some(id) => {
            notes.refused(AllocationSite::Enqueue, Some(id));
            true
        }
        None => false,
    }
}
