//! The reasons of a job's state (RFC 8011, section 5.3.8).
ghost use Rattle.std.specs.Prelude.{◌≡◌};
ghost use Rattle.job_objects.specs.Reasons.{keyword_of, reasons_of, held_reasons, pending_reason, waiting_reasons, canceled_reason};

use crate::job::{Canceler, Job};
use crate::job_state::JobState;

/// A reason of a job's state (RFC 8011, section 5.3.8).
#[derive(Clone, Copy, PartialEq, Eq)]
pub enum Reason {
    /// The keyword `none`.
    Nothing,
    /// The job's printer is paused, or its device is stopped.
    PrinterStopped,
    /// No device can print the job at present.
    ResourcesAreNotReady,
    /// Documents are still to come.
    JobIncoming,
    /// The job is held.
    JobHoldUntilSpecified,
    /// A device prints the job.
    JobPrinting,
    JobCanceledByUser,
    JobCanceledByOperator,
    /// The job couldn't be printed, or its documents stopped coming.
    AbortedBySystem,
    JobCompletedSuccessfully,
}

/// The reasons of a job: one, or two in order.
#[derive(Clone, Copy, PartialEq, Eq)]
pub struct JobReasons {
    pub first: Reason,
    pub second: Option<Reason>,
}

impl Reason {
    /// The keyword of the reason.
    pub fn keyword(self) -> &'static str
        ensures { result.now ≡ keyword_of self }
    {
        match self {
            Reason::Nothing => "none",
            Reason::PrinterStopped => "printer-stopped",
            Reason::ResourcesAreNotReady => "resources-are-not-ready",
            Reason::JobIncoming => "job-incoming",
            Reason::JobHoldUntilSpecified => "job-hold-until-specified",
            Reason::JobPrinting => "job-printing",
            Reason::JobCanceledByUser => "job-canceled-by-user",
            Reason::JobCanceledByOperator => "job-canceled-by-operator",
            Reason::AbortedBySystem => "aborted-by-system",
            Reason::JobCompletedSuccessfully => "job-completed-successfully",
        }
    }
}

/// The reasons of a job's state. `printer_paused` indicates whether its printer is paused.
pub fn reasons(job: &Job, printer_paused: bool) -> JobReasons
    ensures { result ≡ reasons_of job.now printer_paused }
{
    match job.state {
        JobState::Pending => one(pending_reason(printer_paused, job.stranded)),
        JobState::PendingHeld => held_reasons(job.incoming, job.held),
        JobState::Processing => one(Reason::JobPrinting),
        JobState::Stopped => one(Reason::PrinterStopped),
        JobState::Canceled => one(canceled_reason(job.canceled_by)),
        JobState::Aborted => one(Reason::AbortedBySystem),
        JobState::Completed => one(Reason::JobCompletedSuccessfully),
    }
}

/// A list of one reason.
fn one(reason: Reason) -> JobReasons
    ensures { result ≡ record { first = reason; second = None } }
{
    JobReasons {
        first: reason,
        second: None,
    }
}

/// The reasons of a job that no device has had: documents are still to come, or the job is held, or else the
/// cause that keeps the job from being printed.
pub fn waiting_reasons(
    incoming: bool,
    held: bool,
    stranded: bool,
    printer_paused: bool,
) -> JobReasons
    ensures { result ≡ waiting_reasons incoming held stranded printer_paused }
{
    if incoming || held {
        held_reasons(incoming, held)
    } else {
        one(pending_reason(printer_paused, stranded))
    }
}

/// The reason of a pending job that isn't printed yet.
fn pending_reason(printer_paused: bool, stranded: bool) -> Reason
    ensures { result ≡ pending_reason stranded printer_paused }
{
    if printer_paused {
        Reason::PrinterStopped
    } else if stranded {
        Reason::ResourcesAreNotReady
    } else {
        Reason::Nothing
    }
}

/// The reasons of a pending-held job.
fn held_reasons(incoming: bool, held: bool) -> JobReasons
    ensures { result ≡ held_reasons incoming held }
{
    if !incoming {
        return one(Reason::JobHoldUntilSpecified);
    }
    JobReasons {
        first: Reason::JobIncoming,
        second: if held {
            Some(Reason::JobHoldUntilSpecified)
        } else {
            None
        },
    }
}

/// The reason of a canceled job.
fn canceled_reason(by: Option<Canceler>) -> Reason
    ensures { result ≡ canceled_reason by }
{
    match by {
        Some(Canceler::Owner) => Reason::JobCanceledByUser,
        Some(Canceler::Operator) | None => Reason::JobCanceledByOperator,
    }
}
