//! Pages: the body of the page of each recorded day must equal its file.

use base_types::Moment;
use jiff::tz::{Offset, TimeZone};
use playback::Follower;
use queue_reports::{PageOptions, write_page};
use std::alloc::Global;

/// A page of a recorded day: the file of the day, its moment in ms, and the file with the page's body. Without a moment
/// it is that at the day's end.
pub struct PagedMoment {
    pub day: &'static str,
    pub at: Option<u64>,
    pub names: bool,
    /// The hours by which the page's clock is ahead of UTC.
    pub ahead: i8,
    pub body: &'static str,
}

pub const PAGED: [PagedMoment; 4] = [
    PagedMoment {
        day: "late_jobs.trace",
        at: Some(150_000),
        names: true,
        ahead: 0,
        body: "late_jobs.page",
    },
    PagedMoment {
        day: "recorded_day.trace",
        at: None,
        names: false,
        ahead: 0,
        body: "recorded_day.page",
    },
    PagedMoment {
        day: "two_printers_day.trace",
        at: None,
        names: false,
        ahead: 2,
        body: "two_printers_day.page",
    },
    PagedMoment {
        day: "markup_in_names.trace",
        at: None,
        names: true,
        ahead: 0,
        body: "markup_in_names.page",
    },
];

/// Plays a day. Returns whether it can be played.
pub fn plays(follower: &mut Follower, day: &[u8]) -> bool {
    follower.add(day).is_ok() && follower.turns().is_ok()
}

/// The page of a day at a moment, or at its end, by a follower of which nothing was played.
fn page_at(
    alloc: Global,
    follower: &mut Follower,
    day: &[u8],
    at: Option<Moment>,
    options: &PageOptions<'_>,
) -> Option<String> {
    if let Some(at) = at {
        follower.stop_after(at);
    }
    if !plays(follower, day) {
        return None;
    }
    let view = follower.view_at(at.unwrap_or(Moment::start())).ok()??;
    write_page(alloc, &view, options).ok()
}

/// The page of a day.
fn page_of(alloc: Global, day: &[u8], paged: &PagedMoment) -> Option<String> {
    let options = PageOptions {
        zone: TimeZone::fixed(Offset::from_hours(paged.ahead).ok()?),
        names: paged.names,
        refresh: None,
        quiet_since: None,
    };
    let mut follower = Follower::new(alloc);
    let at = paged.at.and_then(Moment::new);
    page_at(alloc, &mut follower, day, at, &options)
}

/// Whether the page of a day has just this body.
pub fn is_paged_so(alloc: Global, day: &[u8], paged: &PagedMoment, wanted: &[u8]) -> bool {
    let Some(page) = page_of(alloc, day, paged) else {
        return false;
    };
    match page.as_str().split_once("</head>\n") {
        Some((_, body)) => body.as_bytes() == wanted,
        None => false,
    }
}
