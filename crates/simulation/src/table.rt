//! The table of the figures of days.

use crate::day::Day;
use crate::outcome::Outcome;
use crate::summary::{Waits, last_end, printed_on, waits_of};
use base_types::{Stranded, Text};
use drawing::{Page, ShortTime, digits_of};
use plan_text::cause_word;
use std::alloc::{AllocError, Global};

/// The width of the name at the beginning of a row. No row is wider than 80 columns.
const NAME: usize = 16;

/// The widths of the figures of a day.
const JOBS: usize = 7;

const TIME: usize = 9;

const PERCENT: usize = 13;

const LATE: usize = 11;

/// The width of a device's times.
const PAIR: usize = 16;

/// The most days side by side.
const BESIDE: usize = 4;

/// The most jobs without a device whose numbers are listed.
const STRANDED: usize = 10;

/// Appends this many spaces.
pub(crate) fn put_spaces(page: Page, count: usize) -> Page {
    let mut page = page;
    for _ in 0..count {
        page = page.put_letter(' ');
    }
    page
}

/// Appends a text, right-aligned to a width.
pub(crate) fn put_right(page: Page, text: &str, columns: usize) -> Page {
    put_spaces(page, columns.saturating_sub(text.len())).put(text)
}

/// Appends a text, left-aligned to a width.
pub(crate) fn put_left(page: Page, text: &str, columns: usize) -> Page {
    put_spaces(page.put(text), columns.saturating_sub(text.len()))
}

/// Appends the head of the rows of times.
fn put_waits_head(page: Page) -> Page {
    let page = put_right(put_left(page, "time to paper", NAME), "jobs", JOBS);
    let page = put_right(put_right(page, "mean", TIME), "of planned", PERCENT);
    let page = put_right(put_right(page, "median", TIME), "95 of 100", LATE);
    put_right(page, "worst", TIME).put_letter('\n')
}

/// Appends a time, right-aligned to a width.
fn put_time(page: Page, millis: u64, columns: usize) -> Page {
    let time = ShortTime(millis);
    put_spaces(page, columns.saturating_sub(time.letters())).put_shown(time)
}

/// Appends a count, right-aligned to a width.
pub(crate) fn put_count(page: Page, count: usize, columns: usize) -> Page {
    let digits = digits_of(count as u64);
    put_spaces(page, columns.saturating_sub(digits)).put_shown(count)
}

/// A part of a whole in per cent, rounded down.
pub(crate) fn percent_of(part: u64, whole: u64) -> u128 {
    u128::from(part)
        .saturating_mul(100)
        .checked_div(u128::from(whole))
        .unwrap_or(100)
}

/// Appends a part of a whole in per cent, right-aligned to a width.
fn put_percent(page: Page, part: u64, whole: u64, columns: usize) -> Page {
    let percent = percent_of(part, whole);
    let digits = digits_of(u64::try_from(percent).unwrap_or(u64::MAX));
    put_spaces(page, columns.saturating_sub(digits.saturating_add(2)))
        .put_shown(percent)
        .put(" %")
}

/// Appends the row of a day, whose mean is compared with that of the planned day.
fn put_waits(page: Page, name: &str, waits: Waits, planned: u64) -> Page {
    let page = put_count(put_left(page, name, NAME), waits.jobs, JOBS);
    let page = put_time(page, waits.mean, TIME);
    let page = put_percent(page, waits.mean, planned, PERCENT);
    let page = put_time(page, waits.median, TIME);
    let page = put_time(page, waits.late, LATE);
    put_time(page, waits.worst, TIME).put_letter('\n')
}

/// Appends the rows of all days. The means are compared with that of the first.
fn put_all_waits(alloc: Global, page: Page, day: &Day, outcomes: &[Outcome]) -> Page {
    let mut page = put_waits_head(page);
    let mut planned = None;
    for outcome in outcomes {
        let Ok(waits) = waits_of(alloc, day, &outcome.prints) else {
            return page.refused();
        };
        let first = planned.unwrap_or(waits.mean);
        planned = Some(first);
        page = put_waits(page, outcome.name, waits, first);
    }
    page
}

/// Appends the time for which a device printed, and the time for which it was idle until the end of the last
/// job of the day.
fn put_use(page: Page, outcome: &Outcome, device: usize) -> Page {
    let printed = printed_on(&outcome.prints, device);
    let idle = last_end(&outcome.prints).saturating_sub(printed);
    let (printed, idle) = (ShortTime(printed), ShortTime(idle));
    let letters = printed.letters().saturating_add(idle.letters());
    put_spaces(page, PAIR.saturating_sub(letters.saturating_add(2)))
        .put_shown(printed)
        .put(", ")
        .put_shown(idle)
}

/// Appends the name of a device, filled up to the width of a name.
fn put_name(page: Page, name: &[u8]) -> Page {
    let mut page = page;
    for byte in name {
        page = page.put_letter(char::from(*byte));
    }
    put_spaces(page, NAME.saturating_sub(name.len()))
}

/// Appends the row of a device.
fn put_device(page: Page, name: &Text, outcomes: &[Outcome], device: usize) -> Page {
    let mut page = put_name(page, name.as_bytes());
    for outcome in outcomes {
        page = put_use(page, outcome, device);
    }
    page.put_letter('\n')
}

/// Appends the head of the rows of devices.
fn put_devices_head(page: Page, outcomes: &[Outcome]) -> Page {
    let mut page = put_left(page, "printed, idle", NAME);
    for outcome in outcomes {
        page = put_right(page, outcome.name, PAIR);
    }
    page.put_letter('\n')
}

/// Appends the rows of all devices, below an empty line.
fn put_devices(page: Page, names: &[Text], outcomes: &[Outcome]) -> Page {
    let mut page = put_devices_head(page.put_letter('\n'), outcomes);
    for (device, name) in names.iter().enumerate() {
        page = put_device(page, name, outcomes, device);
    }
    page
}

/// Appends the rows of all devices, for a few days at a time.
fn put_all_devices(page: Page, names: &[Text], outcomes: &[Outcome]) -> Page {
    let mut page = page;
    for beside in outcomes.chunks(BESIDE) {
        page = put_devices(page, names, beside);
    }
    page
}

/// Appends the number of a job that no device can print, with its cause.
fn put_stranded_job(page: Page, place: usize, stranded: &Stranded) -> Page {
    page.put(if place == 0 { ": " } else { ", " })
        .put_shown(stranded.job.number())
        .put(" ")
        .put(cause_word(stranded.cause))
}

/// Appends the number of jobs that no device can print, and the places of the first of them, each with its
/// cause.
pub(crate) fn put_stranded(page: Page, stranded: &[Stranded]) -> Page {
    let mut page = page
        .put("no device can print ")
        .put_shown(stranded.len())
        .put(" of the jobs");
    let named = stranded.len().min(STRANDED);
    for (place, one) in stranded[..named].iter().enumerate() {
        page = put_stranded_job(page, place, one);
    }
    page
}

/// The table of a day's figures, as it was played in several ways, in whole lines. The only error is out of
/// memory.
pub(crate) fn table_of(
    alloc: Global,
    names: &[Text],
    day: &Day,
    outcomes: &[Outcome],
) -> Result<String, AllocError> {
    let page = put_all_waits(alloc, Page::new(alloc), day, outcomes);
    let page = put_all_devices(page, names, outcomes);
    put_stranded(page.put_letter('\n'), &day.stranded)
        .put_letter('\n')
        .finish()
}
