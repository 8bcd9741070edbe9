//! Laws of the core, as contracts of functions that do nothing: the invariant of its state; the documents
//! that each step and each dispatch keep; that an event leads to one state and one value of effects; and that the
//! response to a Send-Document has its job as it is after the step.
ghost use Rattle.std.specs.Prelude.{ℕ, ◌≡◌, [], List, Ok, Option};
ghost use Rattle.plan_prices.specs.Plan.{PlanRecord};
ghost use Rattle.print_room.specs.declared.started.Started.{Started};
ghost use Rattle.print_room.specs.State.{State};
ghost use Rattle.print_room.specs.Dispatch.{Dispatches};
ghost use Rattle.print_room.specs.DeviceJobs.{AllKeep, IsRoom};
ghost use Rattle.spool.specs.Spool.{IsSpool};
ghost use Rattle.events.specs.declared.event.Event.{Event};
ghost use Rattle.events.specs.declared.event.Event.TheVariants as Is;
ghost use Rattle.events.specs.declared.event.SendDocument.{SendDocument};
ghost use Rattle.events.specs.declared.effects.Effects.{Effects};
ghost use Rattle.events.specs.declared.status.Status.TheVariants as Went;
ghost use Rattle.events.specs.Event.{is_query};
ghost use Rattle.events.specs.Effects.{Replies};
ghost use Rattle.events.specs.SameEvent.{SameEvent};
ghost use Rattle.dispatcher.specs.declared.send_document.Sent.{Sent};
ghost use Rattle.dispatcher.specs.SendDocument.{IsShown, sent_of};
ghost use Rattle.dispatcher.specs.Step.{Step, TakesNoMemory};
ghost use Rattle.dispatcher.specs.Keeping.{StepKeeps};
ghost use Rattle.dispatcher.specs.OneStep.{SameEnd};

use crate::server_core::Core;
use plan_prices::Planner;

impl<P: Planner + Drop> Core<P> {
    /// The invariant of the state: those of the print room and of its spool.
    pub fn is_kept(&self)
        ensures room { IsRoom self.now }
        ensures spool { IsSpool self.now.spool }
    {
        // Reading the devices and the jobs gives their invariants.
        let _devices = self.room.devices();
        let _jobs = self.room.spool().jobs();
    }

    /// The documents of jobs that devices have are unchanged, byte for byte, over each event and each
    /// dispatch. The effects of a report have all documents of the job that it ends, and no other job's
    /// documents change.
    pub fn documents_stay(&self)
        ensures steps { (event : Event) (moment : ℕ) (effects : Effects) (new : State) → Step self.now event moment effects new → StepKeeps event self.now effects.documents.items new }
        ensures dispatches { (now : ℕ) (plan : Option PlanRecord) (started : List Started) (new : State) → Dispatches now self.now plan started new → AllKeep self.now new }
    {
        self.room.documents_stay();
    }

    /// The response to a Send-Document has the group of its job after the step: whether its documents are
    /// still to come, and the reasons of its state (RFC 8011, sections 4.3.1 and 5.3.8).
    pub fn sent_is_shown(&self)
        ensures { (request : SendDocument) (moment : ℕ) (effects : Effects) (new : State) (sent : Sent) → Step self.now (Is.SendDocument request) moment effects new → sent_of request self.now ≡ Ok sent → Replies Went.Ok [] sent.groups effects × IsShown sent.job sent.groups new }
    {
        // Reading the jobs gives their invariants.
        let _jobs = self.room.spool().jobs();
    }
}

/// An event at a state and a moment leads to at most one state and one value of effects. The same holds for two events
/// with the same content.
pub fn one_step()
    ensures { (old : State) (one other : Event) (moment : ℕ) (effects : Effects) (new : State) (second : Effects) (after : State) → SameEvent one other → Step old one moment effects new → Step old other moment second after → SameEnd effects new second after }
{}

/// Of two events with the same content, both are queries or neither is, and both take memory or neither does.
pub fn same_needs()
    ensures query { (one other : Event) → SameEvent one other → is_query one ≡ is_query other }
    ensures memory { (one other : Event) (moment : ℕ) (old : State) → SameEvent one other → TakesNoMemory one moment old → TakesNoMemory other moment old }
{}
