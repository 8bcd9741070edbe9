//! The content of a whole reply.
ghost use Rattle.std.specs.Prelude.{◌≡◌};
ghost use Rattle.adapter_printers.specs.TaskOutcome.{is_completed, is_printed, more_than, pages_due, pages_reported};

use crate::exchange::Exchange;
use crate::task_outcome::{ReplyBreach, TaskOutcome};
use ipp_codec::{GroupTag, MessageView};
use ipp_requests::{is_successful, number_in, reply_in};

/// The id of each request, which its reply repeats (RFC 8011, section 4.1.2).
const REQUEST: u32 = 1;

/// The HTTP status of an IPP reply (RFC 8010, section 4).
const OK: u32 = 200;

/// The state of a job at the printer.
#[derive(Clone, Copy)]
pub(crate) enum PrinterJobState {
    /// The job isn't printed yet.
    Goes,
    Completed,
    /// The job was canceled or aborted.
    GivenUp,
}

/// A printer's answer about a job.
#[derive(Clone, Copy)]
pub(crate) struct JobAnswer {
    pub(crate) job: Option<i32>,
    pub(crate) state: PrinterJobState,
    /// The number of printed impressions, if the answer has it.
    pub(crate) impressions: Option<u32>,
}

impl JobAnswer {
    /// The result of the answer, where `before` impressions were reported earlier. The result has the
    /// impressions if they are more than `before`, also for the answer that completes the job.
    pub(crate) fn outcome(self, before: u32) -> TaskOutcome
        ensures pages { pages_reported result ≡ pages_due self before }
        ensures printed { is_printed result ≡ is_completed self.state }
    {
        let pages = more_than(before, self.impressions);
        match self.state {
            PrinterJobState::Goes => match pages {
                Some(count) => TaskOutcome::Pages(count),
                None => TaskOutcome::Nothing,
            },
            PrinterJobState::Completed => TaskOutcome::Printed(pages),
            PrinterJobState::GivenUp => TaskOutcome::Failed(ReplyBreach::GivenUp),
        }
    }
}

/// The number of impressions, if it is greater than before.
fn more_than(before: u32, impressions: Option<u32>) -> Option<u32>
    ensures { result ≡ more_than before impressions }
{
    match impressions {
        Some(count) if count > before => Some(count),
        _ => None,
    }
}

/// The message of a reply to a request, whose status is a success.
pub(crate) fn message_of(exchange: &Exchange) -> Result<MessageView<'_>, ReplyBreach> {
    if let Some(fault) = exchange.fault() {
        return Err(ReplyBreach::Fault(fault));
    }
    if exchange.status() != OK {
        return Err(ReplyBreach::Http(exchange.status()));
    }
    match reply_in(exchange.body()) {
        Some(reply) if reply.request_id() != REQUEST => Err(ReplyBreach::NotIpp),
        Some(reply) if is_successful(reply.code()) => Ok(reply),
        Some(reply) => Err(ReplyBreach::Ipp(reply.code())),
        None => Err(ReplyBreach::NotIpp),
    }
}

/// The answer about a job in a reply.
pub(crate) fn job_answer(exchange: &Exchange) -> Result<JobAnswer, ReplyBreach> {
    let reply = message_of(exchange)?;
    let Some(state) = number_in(&reply, GroupTag::JOB, b"job-state") else {
        return Err(ReplyBreach::NotIpp);
    };
    let impressions = number_in(&reply, GroupTag::JOB, b"job-impressions-completed");
    Ok(JobAnswer {
        job: number_in(&reply, GroupTag::JOB, b"job-id"),
        state: job_state(state),
        impressions: impressions.and_then(|count| u32::try_from(count).ok()),
    })
}

/// The state with this number (RFC 8011, section 5.3.7).
fn job_state(number: i32) -> PrinterJobState {
    match number {
        7 | 8 => PrinterJobState::GivenUp,
        9 => PrinterJobState::Completed,
        _ => PrinterJobState::Goes,
    }
}
