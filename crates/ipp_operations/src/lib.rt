//! The operations of IPP (RFC 8011): the events in bodies, and the core's responses as bytes.
//!
//! [`ipp_event`] returns the event of a body, or the status with which the body is refused. Two parsed
//! requests of one body are equal ([`one_asked`]). A [`RequestParser`] parses a body that comes in chunks,
//! with the same result. The table `operation_attribute` has the attributes that an operation reads, with
//! their tags. The contracts of [`ipp_response`] and [`ipp_refusal`] determine each byte of a reply. Those of
//! [`lpd_ack`] and [`lpd_queue_text`] determine each byte that an LPD client (RFC 1179) is sent.
//!
//! The crate doesn't apply an event, and reads from no wire. `docs/IPP.md` has the rules for authors of
//! clients. Examples: the traces in `crates/play_examples/data`.
#![tactic(auto)]

mod attributes;
mod copied;
mod event;
mod header;
mod job_creation;
mod job_requests;
mod law;
mod operation_attribute;
mod parsed_request;
mod printer_requests;
mod queue_text;
mod refusal;
mod request;
mod request_parser;
mod requested;
mod response;
mod syntax;
mod target;

pub use header::request_id;
pub use law::one_asked;
pub use parsed_request::{ParsedRequest, ipp_event};
pub use queue_text::{ACCEPTED, REFUSED, lpd_ack, lpd_queue_text};
pub use refusal::ipp_refusal;
pub use request_parser::RequestParser;
pub use response::ipp_response;
