//! The polls of a door and of a connection.
ghost use Rattle.server.specs.World.{moved};
ghost use Rattle.server.specs.Polling.{AcceptsAt, Opens, ReadsOne, WritesOne};
ghost use Rattle.server.specs.Refinement.{Refines};

use crate::engine::Engine;
use base_types::{Limits, Moment};
use connections::table::{end, feed, insert, offer, to_read};
use connections::{Fed, Offered};
use dispatcher::{AllocationSite, Observer};
use plan_prices::Planner;
use wires::{Door, Progress, Wire, WireId};

/// The largest number of bytes of one read.
pub(crate) const SEGMENT: usize = 4096;

/// One accept, one read or one write, with all that the poll brings.
impl<P: Planner + Drop> Engine<P> {
    /// Accepts at most one connection at a door. Accepts none while [`Limits::CONNECTIONS`] are open.
    pub(crate) fn accept_at<W: Wire + Observer>(&mut self, door: Door, world: &mut W)
        ensures { Refines (moved W.polled W.notified) (AcceptsAt door) world.old self.old world.new self.new }
    {
        if self.connections.len() < Limits::CONNECTIONS {
            if let Progress::Done(id) = world.poll_accept(door) {
                self.open(door, id, world);
            }
        }
    }

    /// Inserts a connection that came. If memory for it is refused, the observer is notified and the connection
    /// is closed.
    fn open<W: Wire + Observer>(&mut self, door: Door, id: WireId, world: &mut W)
        ensures { Refines (moved W.polled W.notified) (Opens door id) world.old self.old world.new self.new }
    {
        if insert(&mut self.connections, self.alloc, id, door) {
            return;
        }
        world.refused(AllocationSite::Accept, Some(id));
        world.close(id);
    }

    /// Reads the connection under a key once, if it is to be read, and acts on the items that the read
    /// completes. The segment that is read is written to the buffer `segment`.
    pub(crate) fn read_one<W: Wire + Observer>(
        &mut self,
        moment: Moment,
        key: usize,
        segment: &mut [u8; SEGMENT],
        world: &mut W,
    )
        ensures { Refines (moved W.polled W.notified) (ReadsOne moment key) world.old self.old world.new self.new }
    {
        let Some(id) = to_read(&self.connections, key) else {
            return;
        };
        let count = match world.poll_read(id, segment) {
            Progress::Done(count) => count,
            Progress::Waiting => return,
            Progress::End => return end(&mut self.connections, key),
            Progress::Fault => return self.fail(moment, key, world),
        };
        let Some(fed) = feed(&mut self.connections, key, &segment[..count]) else {
            return;
        };
        match fed {
            Fed::Discarded => {}
            Fed::Fed => self.serve(moment, key, world),
            Fed::Refused(id) => {
                world.refused(AllocationSite::Feed, Some(id));
                self.close_broken(moment, world);
            }
        }
    }

    /// Writes once on the connection under a key, if bytes wait there.
    pub(crate) fn write_one<W: Wire + Observer>(
        &mut self,
        moment: Moment,
        key: usize,
        world: &mut W,
    )
        ensures { Refines (moved W.polled W.notified) (WritesOne moment key) world.old self.old world.new self.new }
    {
        match offer(&mut self.connections, key, world) {
            Offered::Nothing => {}
            Offered::Done(_) => {}
            Offered::Waiting => {}
            Offered::Ended => self.fail(moment, key, world),
        }
    }
}
