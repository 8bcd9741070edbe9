//! The texts of cells.

use base_types::{Finishings, Moment};
use jiff::Timestamp;
use job_objects::JobState;
use queue_views::Clock;
use quotes::Escaped;
use std::alloc::{AllocError, Global};
use std::fmt;

/// The ms of a second.
const SECOND: u64 = 1_000;

/// A number of ms, as seconds with three decimals.
#[derive(Clone, Copy)]
pub(crate) struct Seconds(pub(crate) u64);

/// Finishings by their names, with a space between two.
#[derive(Clone, Copy)]
pub(crate) struct FinishingNames(pub(crate) Finishings);

impl fmt::Display for Seconds {
    fn fmt<W: fmt::Write>(&self, f: &mut fmt::Formatter<W>) -> fmt::Result {
        let (whole, part) = (self.0 / SECOND, self.0 % SECOND);
        write!(f, "{whole}.{part:03}")
    }
}

/// Writes a name, if it is wanted, with a space before it unless it is the first.
fn write_name<W: fmt::Write>(
    f: &mut fmt::Formatter<W>,
    wanted: bool,
    first: bool,
    name: &str,
) -> fmt::Result {
    if !wanted {
        return Ok(());
    }
    if !first {
        f.write_str(" ")?;
    }
    f.write_str(name)
}

impl fmt::Display for FinishingNames {
    fn fmt<W: fmt::Write>(&self, f: &mut fmt::Formatter<W>) -> fmt::Result {
        let Finishings {
            staple,
            punch,
            bind,
        } = self.0;
        write_name(f, staple, true, "staple")?;
        write_name(f, punch, !staple, "punch")?;
        write_name(f, bind, !staple && !punch, "bind")
    }
}

/// The name of a state (RFC 8011, section 5.3.7), or that the state isn't known.
pub(crate) fn state_name(state: Option<JobState>) -> &'static str {
    match state {
        Some(JobState::Pending) => "pending",
        Some(JobState::PendingHeld) => "pending-held",
        Some(JobState::Processing) => "processing",
        Some(JobState::Stopped) => "processing-stopped",
        Some(JobState::Canceled) => "canceled",
        Some(JobState::Aborted) => "aborted",
        Some(JobState::Completed) => "completed",
        None => "unknown",
    }
}

/// The instant of a moment, if the clock has it.
fn instant_of(clock: &Clock, moment: Moment) -> Option<Timestamp> {
    let millis = clock.time_at(moment.millis())?;
    Timestamp::from_millisecond(i64::try_from(millis).ok()?).ok()
}

/// The cell of a moment: its time in UTC, as RFC 3339 writes it, or, by a clock without times, its ms. The only error
/// is out of memory.
pub(crate) fn time_cell(
    alloc: Global,
    clock: &Clock,
    moment: Moment,
) -> Result<String, AllocError> {
    let millis = moment.millis();
    match instant_of(clock, moment) {
        Some(instant) => format!(in alloc; "{instant}"),
        None => format!(in alloc; "{millis}"),
    }
}

/// Returns whether a spreadsheet takes a text for a formula by its first character other than a space.
fn is_formula(text: &str) -> bool {
    match text.trim_start().chars().next() {
        Some(first) => matches!(first, '=' | '+' | '-' | '@' | '＝' | '＋' | '－' | '＠'),
        None => false,
    }
}

/// The cell of a text of a client. What doesn't print is escaped, and a formula has an apostrophe before it, by
/// which a spreadsheet takes it for a text. The only error is out of memory.
pub(crate) fn text_cell(alloc: Global, bytes: &[u8]) -> Result<String, AllocError> {
    let shown = Escaped(bytes);
    let text = format!(in alloc; "{shown}")?;
    if is_formula(&text) {
        return format!(in alloc; "'{text}");
    }
    Ok(text)
}
