//! The log of a server, in lines.
//!
//! A [`LogFormatter`] makes the lines of a turn: connections, jobs that come, begin, end or are late, plans, and refusals;
//! once a day the date. It does so for a server that runs, and for a recorded day that is played again. A [`LogWriter`]
//! passes lines to an output that may be slow, and counts those that it drops. [`is_overdue`] is the rule for late jobs,
//! which pages share.
//!
//! A job is logged as ended once it left the device that began it (`specs/RunningJobs.antt`). Of the words of a line
//! nothing is proved but that the functions are safe and end.
//!
//! Tests: `unit_tests`, and recorded days of `play_examples`.
#![tactic(auto)]

mod arrivals;
mod calendar;
mod log;
mod log_formatter;
mod log_writer;
mod logged_plan;
mod overdue;
mod running_jobs;

pub use log_formatter::LogFormatter;
pub use log_writer::LogWriter;
pub use overdue::{is_overdue, lateness};
