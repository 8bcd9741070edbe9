//! Lengths of time and numbers, in words.
use std::fmt;

/// The ms of a second.
const SECOND: u64 = 1_000;

/// The s of a minute.
const MINUTE: u64 = 60;

/// The s of an hour.
const HOUR: u64 = 60 * MINUTE;

/// The s of a day.
const DAY: u64 = 24 * HOUR;

/// A time in ms as people read it, in whole seconds and two units at most: `21 s`, `1 min 40 s`, `12 min`, `1 h 5 min`,
/// `2 d 3 h`. From 10 minutes on it has no seconds. The rest is cut off.
#[derive(Clone, Copy)]
pub(crate) struct Length(pub(crate) u64);

/// Writes a number with its unit, and, unless it is 0, a smaller unit.
fn write_two<W: fmt::Write>(
    f: &mut fmt::Formatter<W>,
    number: u64,
    unit: &str,
    rest: u64,
    smaller: &str,
) -> fmt::Result {
    if rest == 0 {
        write!(f, "{number} {unit}")
    } else {
        write!(f, "{number} {unit} {rest} {smaller}")
    }
}

impl fmt::Display for Length {
    fn fmt<W: fmt::Write>(&self, f: &mut fmt::Formatter<W>) -> fmt::Result {
        let seconds = self.0 / SECOND;
        if seconds < MINUTE {
            write!(f, "{seconds} s")
        } else if seconds < 10 * MINUTE {
            write_two(f, seconds / MINUTE, "min", seconds % MINUTE, "s")
        } else if seconds < HOUR {
            let minutes = seconds / MINUTE;
            write!(f, "{minutes} min")
        } else if seconds < DAY {
            write_two(f, seconds / HOUR, "h", seconds % HOUR / MINUTE, "min")
        } else {
            write_two(f, seconds / DAY, "d", seconds % DAY / HOUR, "h")
        }
    }
}

/// A number of pages.
#[derive(Clone, Copy)]
pub(crate) struct PageCount(pub(crate) u64);

impl fmt::Display for PageCount {
    fn fmt<W: fmt::Write>(&self, f: &mut fmt::Formatter<W>) -> fmt::Result {
        let pages = self.0;
        let word = if pages == 1 { "page" } else { "pages" };
        write!(f, "{pages} {word}")
    }
}
