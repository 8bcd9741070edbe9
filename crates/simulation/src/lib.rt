//! Days of a print room: lists of jobs, days that are simulated, and a day that a trace records.
//!
//! [`read_list`] returns the jobs of a table of text (RFC 4180) for the printers of some settings, or its first
//! fault with its line and its column. The numbers of each job are in their ranges; a job may need what no
//! device has. `csv` splits the text into records, and `jiff` reads clock times and dates.
//!
//! [`run_simulation`] plays the jobs of a list on the devices of some settings, once as the server plans the
//! day, and once for each given [`Policy`], a rule that chooses a device for each job without a plan. The real
//! times of jobs are the estimates or differ from them by a random part. It writes the times from the jobs'
//! moments until they were printed, the time for which each device printed and was idle, and the jobs that no
//! device can print; or it draws the days. The plans are those of the real core, `dispatcher::Core`, which
//! gets requests and reports. A `Queue` is used for the policies: it has the waiting jobs, in the order of
//! their priorities and then in that of the policy.
//!
//! A [`Comparison`] has the figures of several days, each played on several sets of devices, as a table with
//! their ranges and as comma-separated values. [`hasten`] lets the jobs of a list come faster.
//!
//! [`read_day`] has a server play a trace, as a replay does, and looks at its jobs after each event and each
//! turn. The day has for each job its moment, the device that printed it, the start and the end of the print,
//! and its last state. [`draw_day`] draws the day, and [`listed_jobs`] returns its jobs as a list that can be
//! played in other ways.
//!
//! Nothing is proved of a day, except that its functions are safe and end. The contract of a server is in
//! `server`, and the lines are those of `traces`. The crate opens no file and reads no clock and no command
//! line. Examples: the traces and days of `play_examples`; tests of lists: `unit_tests`.
#![tactic(auto)]

mod chart;
mod column;
mod comparison;
mod day;
mod day_job;
mod device_words;
mod draft;
mod fault;
mod field;
mod figures;
mod fleet;
mod floor;
mod further_device;
mod head;
mod job;
mod job_list;
mod list;
mod list_fault;
mod load;
mod medium;
mod moment;
mod outcome;
mod picture;
mod planned;
mod player;
mod policy;
mod queue;
mod read;
mod recorder;
mod request;
mod room;
mod run;
mod summary;
mod table;

pub use chart::draw_day;
pub use column::Column;
pub use comparison::{Comparison, Round};
pub use day::Noise;
pub use day_job::{DayJob, Member};
pub use draft::ListedJob;
pub use fault::DayFault;
pub use fleet::Added;
pub use floor::Watch;
pub use job::{RecordedJob, RecordedPrint};
pub use job_list::{JobList, MOST_JOBS, read_list};
pub use list::listed_jobs;
pub use list_fault::{FaultPlace, ListError, ListFault};
pub use load::hasten;
pub use medium::medium_of;
pub use policy::Policy;
pub use queue::{Queue, Start};
pub use read::{RecordedDay, read_day};
pub use run::{Question, run_simulation};
