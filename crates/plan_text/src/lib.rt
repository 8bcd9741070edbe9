//! The text of a plan, which has one line for each part of the plan: reading and writing.
//!
//! [`read_plan_text`] returns the plan of a text, or the fault of its first faulty line. [`write_plan_text`]
//! writes the text of a plan, which is read back as that plan. A text may have a bad plan: `plan_checker`
//! checks it.
//!
//! A played trace and a server's log have one line for a plan. [`put_class_word`] and [`put_stranded_word`]
//! append the words of that line, and [`put_job_words`] those of a job and its device.
//!
//! Tests: `unit_tests`.
#![tactic(auto)]

mod cut;
mod draft;
mod fault;
mod line;
mod named_plan;
mod names;
mod number;
mod open_class;
mod read_line;
mod read_plan;
mod round_trip;
mod stage;
mod summary;
mod values;
mod write_plan;
mod write_word;

pub use fault::{ReadError, TextFault};
pub use named_plan::PlanText;
pub use names::{has_one_each, name_of};
pub use read_plan::read_plan_text;
pub use round_trip::{one_text, text_read_back};
pub use summary::{put_class_word, put_job_words, put_stranded_word};
pub use write_plan::{write_named_plan, write_plan_text};
pub use write_word::cause_word;
