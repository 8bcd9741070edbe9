//! The responses to queries about a print room at a moment: the groups of IPP's Get-Printer-Attributes,
//! Get-Job-Attributes and Get-Jobs (RFC 8011, sections 4.2.5, 4.3.4 and 4.2.6), and the queues of LPD (RFC
//! 1179).
//!
//! The contracts determine the listed jobs and their order ([`listed`]). Unfinished jobs are listed by their
//! turns: first the jobs of devices, by their estimated ends, then the jobs of the last plan, by their
//! completions, then all others by their ids. Finished jobs are listed from the latest back. A law states that
//! this is an order, and that it drops no job and repeats none ([`listing_is_ordered`]). The values of
//! attributes are determined by `printer_objects`.
//!
//! For LPD the contracts determine the jobs that an operand names, and that they are listed in the same
//! order ([`queue_listing`]). A removal cancels exactly the jobs that its agent may remove, by rising id
//! ([`remove`]). The operators of the settings have no special right there: `root` may remove any job,
//! others their own. No other call changes a room, and each call's only error is out of memory.
//! Examples: the traces in `crates/play_examples/data`.
#![tactic(auto)]

mod entry;
mod expected;
mod groups;
mod law;
mod listing;
mod lpd_entry;
mod lpd_listing;
mod operand;
mod queue;
mod removal;
mod turn;
mod wanted;

pub use entry::Entry;
pub use groups::{job_group, job_groups, printer_group, state_of_printer};
pub use law::listing_is_ordered;
pub use listing::listed;
pub use lpd_listing::queue_listing;
pub use queue::queue_of;
pub use removal::{active_job, is_named, remove};
pub use wanted::Wanted;
