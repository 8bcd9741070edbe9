//! Events, one after the other. Each is a step, the cancels of its effects, and a dispatch unless it is a
//! query.
ghost use Rattle.std.specs.Prelude.{◌≡◌, max, IfOk, OnErr, map};
ghost use Rattle.dispatcher.specs.Notes.{Canceled, Notifies};
ghost use Rattle.dispatcher.specs.Run.{Comes, Run};
ghost use Rattle.dispatcher.specs.Following.{FollowsNotified};

use crate::apply::apply;
use crate::handled::{Dispatch, Handled};
use crate::observer::{AllocationSite, Observer};
use crate::server_core::Core;
use base_types::Moment;
use events::{Cancel, Event};
use plan_prices::Planner;
use std::alloc::{AllocError, Global};

/// An event, and its moment.
#[derive(Drop)]
pub struct Timed {
    pub event: Event,
    pub moment: Moment,
}

impl<P: Planner + Drop> Core<P> {
    /// Takes the step of an event, and dispatches unless the event is a query. The observer is notified of
    /// the cancels and of the dispatch. `None` if memory was refused: the event was dropped, and nothing changed.
    /// A tick, a device's report and a rejected request are never dropped.
    ///
    /// Whenever a plan is made, its priority classes are planned from the highest down. Given when the classes
    /// above leave each device free, each class has the least total of estimated completion times among all
    /// ways to assign its ready jobs to capable devices and order them. The plan's prices prove that to the
    /// checker, which reads the plan alone. Each ready job without a capable device is named.
    pub fn handle<L: Observer>(&mut self, timed: Timed, observer: &mut L) -> Option<Handled>
        ensures { Comes L.notified self.old observer.old timed result self.new observer.new }
    {
        let Timed { event, moment } = timed;
        let is_query = event.is_query();
        let Ok(effects) = apply(self.alloc, &mut self.room, event, moment) else {
            return None;
        };
        notify_cancels(&effects.cancels, observer);
        let dispatch = self.dispatch_after(is_query, moment, observer);
        Some(Handled { effects, dispatch })
    }

    /// Dispatches after an event, unless the event is a query, and notifies the observer.
    fn dispatch_after<L: Observer>(
        &mut self,
        is_query: bool,
        moment: Moment,
        observer: &mut L,
    ) -> Dispatch
        ensures { FollowsNotified L.notified is_query (max moment self.old.last) self.old observer.old result self.new observer.new }
    {
        if is_query {
            return Dispatch::Query;
        }
        match self.dispatch(moment) {
            Ok(true) => {
                observer.dispatched(&self.dispatched(true));
                Dispatch::Planned
            }
            Ok(false) => {
                observer.dispatched(&self.dispatched(false));
                Dispatch::Idle
            }
            Err(_) => {
                observer.refused(AllocationSite::Dispatch, None);
                Dispatch::OutOfMemory
            }
        }
    }

    /// Takes the steps of events, one after the other, each with a dispatch after it unless it is a query.
    /// Returns what was done on each. The observer is notified of the cancels and of each plan with the jobs
    /// that began.
    ///
    /// For each list of requests, moments and device reports, whenever a plan is made, its priority classes are
    /// planned from the highest down. Given when the classes above leave each device free, each class has the
    /// least total of estimated completion times among all ways to assign its ready jobs to capable devices
    /// and order them. The plan's prices prove that to the checker, which reads the plan alone. Each ready job
    /// without a capable device is named.
    ///
    /// The only error is out of memory for the result, before any event.
    pub fn run<L: Observer>(
        &mut self,
        alloc: Global,
        events: Vec<Timed>,
        observer: &mut L,
    ) -> Result<Vec<Option<Handled>>, AllocError>
        ensures ok { IfOk result (λ handled. Run L.notified self.old observer.old events.items handled.items self.new observer.new) }
        ensures err { OnErr result ((self.new ≡ self.old) × (observer.new ≡ observer.old)) }
    {
        let mut handled = Vec::with_capacity(alloc, events.len())?;
        for timed in events {
            handled.push_reserved(self.handle(timed, observer));
        }
        Ok(handled)
    }
}

/// Notifies the observer of cancels.
fn notify_cancels<L: Observer>(cancels: &[Cancel], observer: &mut L)
    ensures { Notifies L.notified observer.old (map Canceled cancels.now) observer.new }
{
    for cancel in cancels {
        observer.canceled(*cancel);
    }
}
