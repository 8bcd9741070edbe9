//! The queue of a print server as it is shown: to people on a page, or to programs.
//!
//! A [`Ledger`] observes the turns of an engine, as their [`dispatcher::Observer`], and keeps what the engine
//! itself doesn't: the last plan, the devices that began jobs, the moments at which devices changed, and the
//! jobs that were printed. [`Ledger::view`] makes a [`QueueView`] of it and the engine: the devices, the
//! unfinished jobs with what is to become of each ([`Prospect`]), and the last finished jobs, at a moment. A
//! view owns what it shows. Its moments are those of the engine, and its [`Clock`] converts them to times. A ledger
//! that keeps accounts has a [`JobAccount`] of each job, too, also of those that the engine no longer keeps.
//!
//! Nothing is proved of a view, except that its functions are safe and end. The rows of the crate are recorded days of
//! `play_examples`, and tests of `unit_tests`.
#![tactic(auto)]

mod accounts;
mod clock;
mod devices;
mod figures;
mod jobs;
mod last_plan;
mod ledger;
mod standing;
mod totals;
mod unended;
mod view;

pub use accounts::{DayAccounts, JobAccount};
pub use clock::{Clock, read_clock};
pub use figures::{Figures, PrintedJob};
pub use ledger::{LAST_FINISHED, Ledger};
pub use totals::PrinterTotals;
pub use view::{
    DeviceState, DeviceView, FinishedJob, JobView, MediumView, NeedsView, PrinterView, Prospect,
    QueueView, TakenJob,
};
