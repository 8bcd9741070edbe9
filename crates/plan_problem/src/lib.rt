//! The problem of one class: the devices that can print each of its jobs, the times of the jobs there, and
//! the wait of each device.
//!
//! The answers are exact: a device is able exactly by the definition of [`able`], and a job has a cause
//! ([`stranded_cause`]) exactly if no device of the settings is able. Times are exact within their ranges. A
//! [`ClassProblem`] made of jobs and devices has a time exactly if the device is able. The crate makes no
//! plans.
//!
//! Examples: the traces in `crates/play_examples/data`; tests: `unit_tests`.
#![tactic(auto)]

mod able_device;
mod alike;
mod cause;
mod class_job;
mod class_problem;
mod job_time;
mod row;

pub use able_device::able;
pub use cause::stranded_cause;
pub use class_job::{ClassJob, build};
pub use class_problem::{ClassProblem, is_class, place_in};
pub use job_time::{rate, time};
pub use row::Row;
