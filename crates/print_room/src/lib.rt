//! A print room: its printers, devices and jobs, the reports of devices, and the dispatch that plans the jobs
//! and starts them.
//!
//! The main call is [`PrintRoom::dispatch`]: whenever a plan is made, each priority class has the least
//! total of completion times, and each free device begins the first job of its list. The contract of
//! each other call determines the state after it. The core decides which call a request needs, and when
//! a dispatch follows. The crate makes no replies. Examples: the traces in `crates/play_examples/data`.
#![tactic(auto)]

mod activity;
mod contents;
mod dispatch;
mod jobs;
mod law;
mod opening;
mod pausing;
mod planning;
mod ready;
mod report;
mod room;
mod started;
mod starting;

pub use room::PrintRoom;
pub use started::Started;
