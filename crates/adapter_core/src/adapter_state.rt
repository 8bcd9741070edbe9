//! The state of an adapter.
ghost use Rattle.std.specs.Prelude.{ℕ, ◌≡◌, ◌<◌, ◌≤◌, [], ◌∷◌, None, Some, IfSome, OnOk, OnErr, true, take, length, option_map};
ghost use Rattle.base_types.specs.Report.{report_of};
ghost use Rattle.adapter_core.specs.Life.{Links, Ordered, Came, Canceled, Sent, EndsCopy, Restarts, Printed, Is};
ghost use Rattle.adapter_core.specs.AdapterState.{IsAfter, Lives, HasRoom, copy_sent_in, is_sent_in, due_in, end_report, fail_report, pages_report, state_report, id_of, reported_events, begun, with_came, with_sent, with_copy, with_restart, with_cancel, changed};

use crate::printer_state::PrinterState;
use crate::work::Work;
use base_types::{JobId, Report};
use std::alloc::{AllocError, Global};
use std::marker::Model;

/// The state of an adapter. In clauses it is a record of the job in hand, the printer's state, and the state
/// that was last reported to the server.
#[derive(Drop)]
pub struct AdapterState {
    alloc: Global,
    work: Option<Work>,
    printer: PrinterState,
    reported: Option<PrinterState>,
}

impl Model for AdapterState {
    ghost use Rattle.adapter_core.specs.AdapterState.{AdapterStateRecord};

    ghost Value = { AdapterStateRecord };

    ghost view = { λ a. record { work = a.work; printer = a.printer; reported = a.reported } };
}

impl AdapterState {
    /// Creates the state of a new adapter. Its printer counts as running.
    pub fn new(alloc: Global) -> AdapterState
        ensures { IsAfter [] result }
    {
        AdapterState {
            alloc,
            work: None,
            printer: PrinterState::Running,
            reported: None,
        }
    }

    /// Begins a connection to the server. A job in hand is dropped: the server has aborted it.
    pub fn link(&mut self)
        ensures life { Lives self.old (Links ∷ []) self.new }
        ensures none { self.new.work ≡ None }
    {
        self.forget();
    }

    /// Takes a job of the server, of this many octets, which are to be sent `times` times.
    pub fn order(&mut self, job: JobId, octets: u32, times: u32)
        requires { self.old.work ≡ None }
        ensures life { Lives self.old (Ordered job octets times ∷ []) self.new }
        ensures job { option_map id_of self.new.work ≡ Some job }
    {
        self.begin(job, octets, times);
    }

    /// The job that isn't answered yet.
    pub fn job(&self) -> Option<JobId>
        ensures { result ≡ option_map id_of self.now.work }
    {
        match &self.work {
            Some(work) => Some(work.job()),
            None => None,
        }
    }

    /// Returns how many octets of the job are still to come, if there is a job.
    pub fn room(&self) -> Option<usize>
        ensures { IfSome result (λ room. (count : ℕ) → count ≤ room → HasRoom self.now.work count) }
    {
        match &self.work {
            Some(work) => Some(work.room()),
            None => None,
        }
    }

    /// Takes octets of the job. The only error is out of memory, and none of them is taken then.
    pub fn take(&mut self, octets: &[u8]) -> Result<(), AllocError>
        requires { HasRoom self.old.work (length octets.now) }
        ensures life { OnOk result (Lives self.old (Came octets.now ∷ []) self.new) }
        ensures err { OnErr result (self.new ≡ self.old) }
    {
        self.keep(octets)
    }

    /// Cancels the job in hand for the server. If there is none or it has another id, nothing changes.
    pub fn cancel(&mut self, job: JobId)
        ensures life { Lives self.old (Canceled job ∷ []) self.new }
        ensures stays { option_map id_of self.new.work ≡ option_map id_of self.old.work }
    {
        self.mark(job);
    }

    /// The octets that may be sent now; none after a cancel.
    pub fn due(&self) -> &[u8]
        ensures { result.now ≡ due_in self.now.work }
    {
        match &self.work {
            Some(work) => work.due(),
            None => &[],
        }
    }

    /// Records that the printer took `count` of the octets that are due, at least one.
    pub fn send(&mut self, count: usize)
        requires some { 0 < count }
        requires due { count ≤ length (due_in self.old.work) }
        ensures life { Lives self.old (Sent (take count (due_in self.old.work)) ∷ []) self.new }
        ensures stays { option_map id_of self.new.work ≡ option_map id_of self.old.work }
    {
        self.pass(count);
    }

    /// Returns whether all octets of a copy are sent.
    pub fn is_copy_sent(&self) -> bool
        ensures { result ≡ copy_sent_in self.now.work }
    {
        match &self.work {
            Some(work) => work.is_copy_sent(),
            None => false,
        }
    }

    /// Ends a copy. The next one is due, if there is to be one.
    pub fn end_copy(&mut self)
        requires { copy_sent_in self.old.work ≡ true }
        ensures life { Lives self.old (EndsCopy ∷ []) self.new }
        ensures stays { option_map id_of self.new.work ≡ option_map id_of self.old.work }
    {
        self.pass_copy();
    }

    /// Has the job sent again from its start: the printer took none of it.
    pub fn restart(&mut self)
        ensures life { Lives self.old (Restarts ∷ []) self.new }
        ensures stays { option_map id_of self.new.work ≡ option_map id_of self.old.work }
    {
        self.pass_back();
    }

    /// Returns whether the job was sent as often as it is to be.
    pub fn is_sent(&self) -> bool
        ensures { result ≡ is_sent_in self.now.work }
    {
        match &self.work {
            Some(work) => work.is_sent(),
            None => false,
        }
    }

    /// The report that the printer has printed this many impressions of the job, all copies together.
    pub fn pages(&self, printed: u32) -> Option<Report>
        ensures life { Lives self.now (reported_events result) self.now }
        ensures value { option_map report_of result ≡ option_map (pages_report printed) self.now.work }
    {
        match &self.work {
            Some(work) => Some(work.pages_report(printed)),
            None => None,
        }
    }

    /// The report that the printer has printed the job: DONE if it was sent as often as it is to be, else
    /// FAIL. The job is not in hand any more.
    pub fn finish(&mut self) -> Option<Report>
        ensures life { Lives self.old (Printed ∷ reported_events result) self.new }
        ensures value { option_map report_of result ≡ option_map end_report self.old.work }
        ensures none { self.new.work ≡ None }
    {
        let report = self.end_report();
        self.drop_work();
        report
    }

    /// The report that the job can't be printed: FAIL. The job is not in hand any more.
    pub fn fail(&mut self) -> Option<Report>
        ensures life { Lives self.old (reported_events result) self.new }
        ensures value { option_map report_of result ≡ option_map fail_report self.old.work }
        ensures none { self.new.work ≡ None }
    {
        let report = self.fail_report();
        self.drop_work();
        report
    }

    /// Sets the printer's state.
    pub fn set_printer(&mut self, printer: PrinterState)
        ensures life { Lives self.old (Is printer ∷ []) self.new }
        ensures stays { self.new.work ≡ self.old.work }
    {
        self.put_printer(printer);
    }

    /// The report of the printer's state, if the server doesn't know it.
    pub fn next_report(&mut self) -> Option<Report>
        ensures life { Lives self.old (reported_events result) self.new }
        ensures value { option_map report_of result ≡ state_report self.old.printer self.old.reported }
        ensures stays { self.new.work ≡ self.old.work }
    {
        let report = self.due_report();
        self.mark_reported();
        report
    }

    /// The report of the printer's state that is due.
    fn due_report(&self) -> Option<Report>
        ensures { option_map report_of result ≡ state_report self.now.printer self.now.reported }
    {
        state_report(self.printer, self.reported)
    }

    /// Records that the printer's state is reported.
    fn mark_reported(&mut self)
        ensures { self.new ≡ record self.old { reported = Some self.old.printer } }
    {
        self.reported = Some(self.printer);
    }

    /// Sets the printer's state.
    fn put_printer(&mut self, printer: PrinterState)
        ensures { self.new ≡ record self.old { printer = printer } }
    {
        self.printer = printer;
    }

    /// The report of a job that is printed.
    fn end_report(&self) -> Option<Report>
        ensures { option_map report_of result ≡ option_map end_report self.now.work }
    {
        match &self.work {
            Some(work) => Some(work.end_report()),
            None => None,
        }
    }

    /// The report of a job that can't be printed.
    fn fail_report(&self) -> Option<Report>
        ensures { option_map report_of result ≡ option_map fail_report self.now.work }
    {
        match &self.work {
            Some(work) => Some(work.fail_report()),
            None => None,
        }
    }

    /// Drops the job, and forgets the reported state.
    fn forget(&mut self)
        ensures { self.new ≡ record self.old { work = None; reported = None } }
    {
        self.work = None;
        self.reported = None;
    }

    /// Drops the job.
    fn drop_work(&mut self)
        ensures { self.new ≡ record self.old { work = None } }
    {
        self.work = None;
    }

    /// Sets the job in hand.
    fn begin(&mut self, job: JobId, octets: u32, times: u32)
        ensures { self.new ≡ record self.old { work = Some (begun job octets times) } }
    {
        self.work = Some(Work::new(self.alloc, job, octets, times));
    }

    /// Appends octets of the job. The only error is out of memory.
    fn keep(&mut self, octets: &[u8]) -> Result<(), AllocError>
        requires { HasRoom self.old.work (length octets.now) }
        ensures ok { OnOk result (self.new ≡ changed (with_came octets.now) self.old) }
        ensures err { OnErr result (self.new ≡ self.old) }
    {
        match &mut self.work {
            Some(work) => work.take(octets),
            None => unreachable!(),
        }
    }

    /// Marks a job as canceled.
    fn mark(&mut self, job: JobId)
        ensures { self.new ≡ changed (with_cancel job) self.old }
    {
        if let Some(work) = &mut self.work {
            work.cancel(job);
        }
    }

    /// Passes over octets that are sent.
    fn pass(&mut self, count: usize)
        requires { count ≤ length (due_in self.old.work) }
        ensures { self.new ≡ changed (with_sent count) self.old }
    {
        if let Some(work) = &mut self.work {
            work.send(count);
        }
    }

    /// Goes back to the first copy.
    fn pass_back(&mut self)
        ensures { self.new ≡ changed with_restart self.old }
    {
        if let Some(work) = &mut self.work {
            work.restart();
        }
    }

    /// Goes on with the next copy.
    fn pass_copy(&mut self)
        requires { copy_sent_in self.old.work ≡ true }
        ensures { self.new ≡ changed with_copy self.old }
    {
        if let Some(work) = &mut self.work {
            work.end_copy();
        }
    }
}

/// The report of a printer's state, which was last reported as `reported`.
fn state_report(printer: PrinterState, reported: Option<PrinterState>) -> Option<Report>
    ensures { option_map report_of result ≡ state_report printer reported }
{
    match (printer, reported) {
        (PrinterState::Running, Some(PrinterState::Running)) => None,
        (PrinterState::Running, _) => Some(Report::Ready),
        (PrinterState::Stopped, Some(PrinterState::Stopped)) => None,
        (PrinterState::Stopped, _) => Some(Report::Stop),
    }
}
