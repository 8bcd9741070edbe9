//! The checker of plans: whether prices prove a way best, and whether a plan as a whole is proved.
//!
//! The checker is independent of any solver: its yes rests on the definitions of a class, a way and fair
//! prices alone, and it takes plans from any source. A yes means that no way, and no timetable with gaps, is
//! better. Any other verdict has the first fault. The times, the first waits and the lists of jobs are taken
//! as given. The order of the classes isn't checked, nor whether a job is named twice among the stranded. The
//! crate finds no plans, and reads no text.
//!
//! Examples: the plans in `crates/play_examples/data`.
#![tactic(auto)]

mod beside;
mod class_verdict;
mod fairness;
mod laws;
mod plan_verdict;
mod totals;
mod verdict;

pub use class_verdict::check_class;
pub use laws::proved_plan_is_yes;
pub use plan_verdict::{check_plan, has_one_list_each};
pub use verdict::{Fault, PlanVerdict, Verdict};
