//! The events: the core handles an event, and bytes become due on the connections of devices.
ghost use Rattle.std.specs.Prelude.{◌≡◌, Some};
ghost use Rattle.dispatcher.specs.Run.{effects_of};
ghost use Rattle.server.specs.Rel.{EachOf};
ghost use Rattle.server.specs.Happening.{Decides, Happens, Orders, Sends, is_undispatched, undispatched_after};
ghost use Rattle.server.specs.Refinement.{Reports};

use crate::due::notify;
use crate::engine::Engine;
use crate::starting::start_all;
use base_types::Moment;
use connections::Outgoing;
use connections::table::{enqueue, key_of};
use dispatcher::{Dispatch, Handled, Observer, Timed};
use events::{Cancel, Effects, Event};
use plan_prices::Planner;

/// The result of an event: what the core did, unless the event was dropped.
#[derive(Drop)]
pub(crate) struct EventResult {
    pub(crate) handled: Option<Handled>,
    /// Whether memory was refused for the dispatch of the event or for the bytes for devices.
    pub(crate) refused: bool,
}

impl<P: Planner + Drop> Engine<P> {
    /// Handles an event by the core, and notifies the observer. Enqueues the lines of the cancels and the bytes
    /// of the jobs that begin on the connections of their devices. The caller enqueues the reply to the event.
    pub(crate) fn handle<N: Observer>(
        &mut self,
        moment: Moment,
        event: Event,
        notes: &mut N,
    ) -> EventResult
        ensures { Reports N.notified (Happens moment event result.handled) notes.old self.old notes.new self.new result.refused }
    {
        let handled = self.core.handle(Timed { event, moment }, notes);
        self.undispatched = undispatched_after(&handled, self.undispatched);
        let undispatched = is_undispatched(&handled);
        let unsent = self.order(&handled, notes);
        EventResult {
            handled,
            refused: undispatched | unsent,
        }
    }

    /// Enqueues the lines of an event's cancels, and then the bytes of the jobs that its dispatch began; nothing for an
    /// event that was dropped. Returns whether memory was refused.
    fn order<N: Observer>(&mut self, handled: &Option<Handled>, notes: &mut N) -> bool
        ensures { Reports N.notified (Orders handled.now) notes.old self.old notes.new self.new result }
    {
        let Some(handled) = handled else {
            return false;
        };
        let unsent = self.send_all(&handled.effects.cancels, notes);
        match handled.dispatch {
            Dispatch::Planned => unsent | start_all(&self.core, &mut self.connections, notes),
            Dispatch::Query => unsent,
            Dispatch::OutOfMemory => unsent,
            Dispatch::Idle => unsent,
        }
    }

    /// Enqueues the lines of these cancels. Returns whether memory was refused.
    fn send_all<N: Observer>(&mut self, cancels: &[Cancel], notes: &mut N) -> bool
        ensures { Reports N.notified (EachOf cancels.now Sends) notes.old self.old notes.new self.new result }
    {
        let mut refused = false;
        for cancel in cancels {
            refused |= self.send(*cancel, notes);
        }
        refused
    }

    /// Enqueues the line of a cancel on the device's connection, if the device has one. Returns whether memory
    /// was refused.
    fn send<N: Observer>(&mut self, cancel: Cancel, notes: &mut N) -> bool
        ensures { Reports N.notified (Sends cancel) notes.old self.old notes.new self.new result }
    {
        let Cancel { job, device } = cancel;
        let Some(key) = key_of(&self.connections, device) else {
            return false;
        };
        let broke = enqueue(&mut self.connections, key, &Outgoing::Cancel(job));
        notify(broke, notes)
    }
}

/// The effects of an event, unless it was dropped.
pub(crate) fn effects_of(handled: Option<Handled>) -> Option<Effects>
    ensures { result ≡ effects_of handled }
{
    match handled {
        Some(handled) => Some(handled.effects),
        None => None,
    }
}

/// Returns whether the dispatch of an event was refused memory.
fn is_undispatched(handled: &Option<Handled>) -> bool
    ensures { result ≡ is_undispatched handled.now }
{
    match handled {
        Some(handled) => match handled.dispatch {
            Dispatch::OutOfMemory => true,
            Dispatch::Query | Dispatch::Idle | Dispatch::Planned => false,
        },
        None => false,
    }
}

/// Returns whether the last dispatch was refused memory, after an event.
fn undispatched_after(handled: &Option<Handled>, before: bool) -> bool
    ensures { result ≡ undispatched_after handled.now before }
{
    match handled {
        Some(handled) => match handled.dispatch {
            Dispatch::Query => before,
            Dispatch::OutOfMemory => true,
            Dispatch::Idle | Dispatch::Planned => false,
        },
        None => before,
    }
}
