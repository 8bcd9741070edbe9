//! A law about the documents of jobs that devices have, as the contract of a function.
ghost use Rattle.std.specs.Prelude.{◌≡◌, ℕ, Bool, List, Option, None, length};
ghost use Rattle.base_types.specs.declared.report.Report.{Report};
ghost use Rattle.job_objects.specs.declared.job_change.JobChange.{JobChange};
ghost use Rattle.plan_prices.specs.Plan.{PlanRecord};
ghost use Rattle.octets.specs.Document.{DocumentRecord};
ghost use Rattle.spool.specs.Submission.{Submission};
ghost use Rattle.print_room.specs.declared.started.Started.{Started};
ghost use Rattle.print_room.specs.State.{State};
ghost use Rattle.print_room.specs.Jobs.{with_job_taken, sending_refusal, sending, changing, canceling, canceling_each, pausing, expiring};
ghost use Rattle.print_room.specs.Report.{Reports};
ghost use Rattle.print_room.specs.Dispatch.{Dispatches};
ghost use Rattle.print_room.specs.DeviceJobs.{AllKeep, KeepsOrEnds};

use crate::room::PrintRoom;

impl PrintRoom {
    /// The documents of jobs that devices have are unchanged, byte for byte, over each request, over time and
    /// over a dispatch. A report hands out all documents of the job that it ends, and changes no other job's
    /// documents.
    pub fn documents_stay(&self)
        ensures submits { (now : ℕ) (job : Submission) (incoming : Bool) → AllKeep self.now (with_job_taken now job incoming self.now) }
        ensures sends { (now id : ℕ) (name : List ℕ) (document : DocumentRecord) (last : Bool) → sending_refusal id name (length document.contents) last self.now ≡ None → AllKeep self.now (sending now id document last self.now) }
        ensures changes { (now id : ℕ) (change : JobChange) → AllKeep self.now (changing now id change self.now) }
        ensures cancels { (now id : ℕ) (name : List ℕ) → AllKeep self.now (canceling now id name self.now) }
        ensures removes { (now : ℕ) (name ids : List ℕ) → AllKeep self.now (canceling_each now name ids self.now) }
        ensures pauses { (now place : ℕ) (paused : Bool) → AllKeep self.now (pausing now place paused self.now) }
        ensures expires { (now : ℕ) → AllKeep self.now (expiring now self.now) }
        ensures reports { (now place : ℕ) (report : Report) (documents : List DocumentRecord) (new : State) → Reports now place report self.now documents new → KeepsOrEnds place self.now documents new }
        ensures dispatches { (now : ℕ) (plan : Option PlanRecord) (started : List Started) (new : State) → Dispatches now self.now plan started new → AllKeep self.now new }
    {
        // Reading the jobs and the devices gives their invariants.
        let _jobs = self.spool().jobs();
        let _devices = self.devices();
    }
}
