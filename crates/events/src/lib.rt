//! The events of the core and its responses: the types that the core shares with the crates that parse
//! requests and write replies.
//!
//! A request of a client, over IPP or LPD, and a report of a device are an [`Event`]. [`Effects`] are the
//! result of an event: a response, cancels for devices, and documents that aren't needed any more. The crate
//! has no bytes of a protocol and no state of the core.
#![tactic(auto)]

mod effects;
mod event;
mod queue;
mod response_groups;
mod status;

pub use effects::{Cancel, Effects, IppResponse, LpdResponse, Response};
pub use event::{
    DocumentForm, Event, GetJobAttributes, GetJobs, GetPrinterAttributes, HoldJob, HoldUntil,
    JobCreation, JobRequest, JobTarget, PrintJob, PrinterRequest, SendDocument, SubmitFiles,
    Target, ValidateJob, WhichJobs,
};
pub use queue::{ListQueue, QueueEntry, QueueForm, QueueListing, RemoveJobs};
pub use response_groups::ResponseGroups;
pub use status::Status;
