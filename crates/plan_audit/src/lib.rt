//! The command `printd check`, which reads the text of a plan and writes the verdict on it.
//!
//! [`run_check`] is its one call. For every input it writes exactly the verdict on the plan of that
//! text, or the reason why the text is refused, and returns the exit status, with the objection and its
//! line. `plan_text` reads the text, and `plan_checker` gives the verdict; the crate reads no command
//! line. [`fault_line`] finds the line at which a text is refused. Examples: the plans in
//! `crates/play_examples/data`.
#![tactic(auto)]

mod check;
mod names;
mod objection;
mod place;
mod starts;

pub use check::{Audit, run_check};
pub use objection::Objection;
pub use place::fault_line;
