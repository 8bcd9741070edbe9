//! The queue of a print server, written for its readers: a page for people, tables for accounts, metrics for monitoring.
//!
//! [`write_page`] writes a [`queue_views::QueueView`] as a page of HTML: what is wrong and what to do about it first, then
//! the devices, the plan, and the jobs that wait and that ended. The page is one file without a script. It is light or
//! dark as its reader's system is, has one column on a phone, and can be printed. Markup is `&'static str`, so that all of
//! it is in these sources. All else, as the names and titles of people, passes through the one function of `html` that
//! escapes text.
//!
//! An [`AccountTable`] has the jobs of a day as comma-separated values: a head and a row for each
//! [`queue_views::JobAccount`]. The columns `time`, `printer`, `octets`, `impressions`, `copies`, `sides`, `media`,
//! `format`, `finishings` and `priority` have the names and the values that `simulation` reads, so the table of a day is
//! a list of jobs, too.
//!
//! [`metrics_of`] writes a view in the text format that Prometheus reads: each metric with its help, its type and its
//! samples. The units are seconds, and the names of counters end with `_total`, as Prometheus has it. The text is one for
//! the textfile collector of Prometheus's node exporter, so its samples have no timestamps.
//!
//! Nothing is proved of these texts, except that the functions are safe and end. Tests of tables and metrics are in
//! `unit_tests`; pages are those of recorded days of `play_examples`.
#![tactic(auto)]

mod account_cell;
mod account_table;
mod devices;
mod exposition;
mod finished;
mod head;
mod html;
mod length;
mod media;
mod page;
mod plan;
mod problems;
mod queue_metrics;
mod sheet;
mod stranded;
mod style;
mod ticks;
mod times;
mod waiting;

pub use account_table::AccountTable;
pub use page::{PageOptions, write_page};
pub use queue_metrics::metrics_of;
