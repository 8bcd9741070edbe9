//! Drawn charts of the prints of devices: a lane for each device, a bar for each job, as long as its print.
//!
//! The maker of a [`Chart`] gives the starts and ends of its bars. [`draw_charts`] draws charts below one
//! another over one scale, as a picture in SVG or for a terminal. [`run_draw`] draws the text of a plan:
//! every plan whose lists are ways of their classes has a chart, which states whether the plan is proved the
//! best. `plan_text` reads the text, `plan_checker` gives the verdict, and `plan_prices` gives the starts and
//! ends of jobs. A [`Page`] is a text under way, also for texts beside a chart.
//!
//! Of charts it is proved that drawing is safe and ends. No function of the crate decides when a job starts,
//! and none reads a command line. Examples: the plans and days in `crates/play_examples/data`.
#![tactic(auto)]

mod chart;
mod chart_of;
mod colour;
mod curve;
mod day;
mod draw;
mod ending;
mod form;
mod frame;
mod label;
mod lane;
mod legend;
mod length;
mod listing;
mod page;
mod picture;
mod row;
mod scale;
mod stranded;
mod svg;
mod terminal;
mod waiting;
mod ways;

pub use chart::{Bar, Chart, ChartJob, Ending, Lane, Mark};
pub use day::{Arrival, Day, Print, chart_of_day};
pub use draw::run_draw;
pub use form::{Form, draw_charts};
pub use length::{ShortTime, digits_of};
pub use page::Page;
