//! The client's side of printing over IPP: requests to a printer as bytes, and the content of its replies
//! (RFC 8010, RFC 8011).
//!
//! Each request is the one spelling of the message in its contract. A value in a reply is the value of the
//! first attribute of its name in the first group of its kind. The crate sends nothing, and doesn't apply a
//! reply to a job.
//!
//! Tests: `unit_tests`.
#![tactic(auto)]

mod group;
mod media;
mod printer;
mod reply;
mod request;
mod submission;
mod ticket;

pub use media::loaded_media;
pub use printer::{copies_up_to, is_stopped};
pub use reply::{first_in, is_successful, lists, lists_number, number_in, reply_in};
pub use request::{ask_of_job, ask_of_printer, cancel_job, print_job};
pub use submission::{Creation, cancel_users_job, create_job, pause_printer, send_document};
pub use ticket::Ticket;
