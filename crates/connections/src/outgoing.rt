//! The messages that a connection sends.
ghost use Rattle.std.specs.Prelude.{ℕ, ◌≡◌, List, ◌++◌};
ghost use Rattle.std.specs.List.{flat_map};
ghost use Rattle.device_link.specs.Orders.{job_line};

use base_types::{JobId, Needs};
use http_front::HttpRejection;
use octets::Document;
use std::marker::Model;

/// A message to a client or to a device. `bytes_of` (`specs/Outgoing.antt`) defines its bytes.
#[derive(Drop)]
pub enum Outgoing<'a> {
    /// Bytes as they are.
    Bytes(&'a [u8]),
    /// The interim head that asks a client to send the body (RFC 9110, section 15.2.1).
    Continue,
    /// The reply to a refused request of HTTP.
    Refusal(HttpRejection),
    /// The reply to a request of IPP.
    Reply {
        /// Whether the connection closes after the reply (RFC 9112, section 9.6).
        closes: bool,
        body: &'a [u8],
    },
    /// The line that cancels a job at its device.
    Cancel(JobId),
    Job(OutgoingJob<'a>),
}

/// A job for a device: the line that announces it, and then its documents. In clauses it is the list of these
/// bytes.
#[derive(Drop)]
pub struct OutgoingJob<'a> {
    pub(crate) job: JobId,
    pub(crate) octets: usize,
    pub(crate) needs: &'a Needs,
    pub(crate) documents: &'a [Document],
}

impl<'a> Model for OutgoingJob<'a> {
    ghost Value = { List ℕ };

    ghost view = { λ j. job_line j.job j.octets j.needs.now ++ flat_map (λ d. d.contents) j.documents.now };
}

impl<'a> OutgoingJob<'a> {
    /// Creates the message of a job whose documents have this many octets.
    pub fn new(
        job: JobId,
        octets: usize,
        needs: &'a Needs,
        documents: &'a [Document],
    ) -> OutgoingJob<'a>
        ensures { result ≡ job_line job octets needs.now ++ flat_map (λ d. d.contents) documents.now }
    {
        OutgoingJob {
            job,
            octets,
            needs,
            documents,
        }
    }
}
