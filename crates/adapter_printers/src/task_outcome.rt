//! The results of a printer's task.
use std::fmt;
use thiserror::Error;

/// Why a printer's reply can't be read.
#[derive(Clone, Copy, Debug, Error)]
pub enum ReplyFault {
    /// The bytes violate the grammar of HTTP/1.
    #[error("no reply of HTTP")]
    NotHttp,
    /// The fields of the head don't give the body's length.
    #[error("a body of no known length")]
    BadLength,
    /// The head or the body is too long.
    #[error("too long a reply")]
    TooLong,
    /// The connection ended before the reply did.
    #[error("closed early")]
    Ended,
}

/// Why a printer's reply isn't usable.
#[derive(Clone, Copy, Debug, Error)]
pub enum ReplyBreach {
    /// The reply isn't a reply of HTTP, or is too long.
    #[error("{0}")]
    Fault(ReplyFault),
    /// The status of the reply isn't 200.
    #[error("http {0}")]
    Http(u32),
    /// The body of the reply isn't a message of IPP, or lacks a requested attribute.
    #[error("no reply of IPP")]
    NotIpp,
    /// The status of the operation is a failure (RFC 8011, appendix B).
    #[error("ipp 0x{0:04x}")]
    Ipp(u16),
    /// The printer canceled or aborted the job.
    #[error("given up")]
    GivenUp,
    /// The reply came before all of the job was sent.
    #[error("too early a reply")]
    TooEarly,
}

/// The options of a job that aren't passed on, since the printer doesn't report that it supports them.
#[derive(Clone, Copy)]
pub struct LeftOut {
    pub copies: bool,
    pub sides: bool,
    pub media: bool,
    pub finishings: bool,
}

impl ReplyBreach {
    /// Returns whether the printer is busy, and may be asked again later (RFC 9110, section 15.6.4; RFC 8011,
    /// appendix B.1.5.8).
    pub(crate) fn is_busy(self) -> bool {
        matches!(self, ReplyBreach::Http(503) | ReplyBreach::Ipp(0x0507))
    }

    /// Returns whether the printer doesn't know a job that it was asked about (RFC 8011, appendix B.1.4.7).
    pub(crate) fn is_not_found(self) -> bool {
        matches!(self, ReplyBreach::Ipp(0x0406))
    }

    /// Returns whether there was no reply.
    pub(crate) fn is_no_reply(self) -> bool {
        matches!(self, ReplyBreach::Fault(_) | ReplyBreach::NotIpp)
    }
}

impl LeftOut {
    /// Returns whether any option is left out.
    pub(crate) fn is_something(self) -> bool {
        self.copies || self.sides || self.media || self.finishings
    }
}

impl fmt::Display for LeftOut {
    fn fmt<W: fmt::Write>(&self, f: &mut fmt::Formatter<W>) -> fmt::Result {
        f.write_str(if self.copies { " copies" } else { "" })?;
        f.write_str(if self.sides { " sides" } else { "" })?;
        f.write_str(if self.media { " media" } else { "" })?;
        f.write_str(if self.finishings { " finishings" } else { "" })
    }
}

/// The result of a printer's task.
#[derive(Clone, Copy)]
pub enum TaskOutcome {
    Nothing,
    /// The printer reports that it needs a person.
    Stops,
    /// The printer reports that it prints again.
    Runs,
    /// The printer's state is read, and it prints: for the first time, or after it was in doubt.
    Back,
    /// This many impressions of the job are printed.
    Pages(u32),
    /// These options of the job aren't passed on.
    LeftOut(LeftOut),
    /// The job is printed. The number of its impressions, if it wasn't reported yet.
    Printed(Option<u32>),
    /// The job can't be printed.
    Failed(ReplyBreach),
    /// The printer's state can't be read.
    Unread(ReplyBreach),
}
