//! Lengths of time, written.

use crate::page::Page;
use std::fmt;

const SECOND: u128 = 1_000;

const MINUTE: u128 = 60 * SECOND;

const HOUR: u128 = 60 * MINUTE;

/// A time in ms, in few characters: `15ms`, `12.5s`, `2m30`, `1h05`. The rest is cut off.
#[derive(Clone, Copy)]
pub struct ShortTime(pub u64);

/// A time by its whole hours, minutes, seconds and tenths of a second, each without the larger units.
#[derive(Clone, Copy)]
struct Parts {
    hours: u128,
    minutes: u128,
    seconds: u128,
    tenths: u128,
}

/// The parts of a time in ms.
fn parts_of(millis: u128) -> Parts {
    Parts {
        hours: millis / HOUR,
        minutes: millis % HOUR / MINUTE,
        seconds: millis % MINUTE / SECOND,
        tenths: millis % SECOND / 100,
    }
}

/// The number of decimal digits of a number.
pub fn digits_of(number: u64) -> usize {
    match number.checked_ilog10() {
        Some(more) => (more as usize).saturating_add(1),
        None => 1,
    }
}

impl ShortTime {
    /// The number of characters of the time.
    pub fn letters(self) -> usize {
        let millis = self.0;
        let (number, tail) = if millis < 1_000 {
            (millis, 2)
        } else if millis < 60_000 {
            (millis / 1_000, 3)
        } else if millis < 3_600_000 {
            (millis / 60_000, 3)
        } else {
            (millis / 3_600_000, 3)
        };
        digits_of(number).saturating_add(tail)
    }
}

/// Writes a number, its unit, and the two digits of the next smaller unit.
fn write_two<W: fmt::Write>(
    f: &mut fmt::Formatter<W>,
    number: u128,
    unit: char,
    rest: u128,
) -> fmt::Result {
    let (tens, ones) = (rest / 10, rest % 10);
    write!(f, "{number}{unit}{tens}{ones}")
}

impl fmt::Display for ShortTime {
    fn fmt<W: fmt::Write>(&self, f: &mut fmt::Formatter<W>) -> fmt::Result {
        let millis = self.0;
        let Parts {
            hours,
            minutes,
            seconds,
            tenths,
        } = parts_of(u128::from(millis));
        if hours > 0 {
            write_two(f, hours, 'h', minutes)
        } else if minutes > 0 {
            write_two(f, minutes, 'm', seconds)
        } else if seconds > 0 {
            write!(f, "{seconds}.{tenths}s")
        } else {
            write!(f, "{millis}ms")
        }
    }
}

impl Page {
    /// Appends two numbers, each with the text after it.
    fn put_two(self, one: u128, after_one: &str, other: u128, after_other: &str) -> Page {
        self.put_shown(one)
            .put(after_one)
            .put_shown(other)
            .put(after_other)
    }

    /// Appends a time in ms, in words: `15 ms`, `12.5 s`, `2 min 30 s`, `1 h 5 min`. The rest is cut off.
    pub(crate) fn put_long_time(self, millis: u128) -> Page {
        let Parts {
            hours,
            minutes,
            seconds,
            tenths,
        } = parts_of(millis);
        if hours > 0 {
            self.put_two(hours, " h ", minutes, " min")
        } else if minutes > 0 {
            self.put_two(minutes, " min ", seconds, " s")
        } else if seconds > 0 {
            self.put_two(seconds, ".", tenths, " s")
        } else {
            self.put_shown(millis).put(" ms")
        }
    }
}
