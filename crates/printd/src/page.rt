//! `printd page`: the queue of a recorded day, as a page of HTML.
use crate::failure::{cannot, or_cannot_with, or_no_memory, out_of_memory, say, write_text};
use crate::following::follow;
use crate::input::{INPUT, open};
use crate::zone::{When, is_fixed, zone_of};
use base_types::{Limits, Moment};
use command_line::Paging;
use jiff::tz::{TimeZone, TimeZoneDatabase};
use playback::{DayFault, Follower};
use program::ExitStatus;
use queue_reports::{PageOptions, metrics_of, write_page};
use queue_views::QueueView;
use recordings::fill;
use std::alloc::AllocError;
use std::io::{Input, Read};
use std::{fs, io};

/// The number of bytes that one read asks for.
const SEGMENT: usize = 65_536;

/// The work of the command, in reports.
pub(crate) const WRITE: &str = "write the page";

/// A day that is read up to a moment.
#[derive(Drop)]
struct Reading<'a> {
    rt: &'a HostRuntime,
    follower: Follower,
    /// The moment of the page, if it isn't the day's end.
    when: Option<When>,
    zone: TimeZone<'a>,
    /// The moment as a moment of the server, once it is known.
    at: Option<Moment>,
    segment: Vec<u8>,
}

/// Reports the fault of a day, and returns the exit status.
pub(crate) fn refused(rt: &HostRuntime, fault: &DayFault) -> ExitStatus {
    match fault {
        DayFault::Reported(status, sentence) => {
            say(rt, sentence);
            *status
        }
        DayFault::OutOfMemory => cannot(rt, "play the day", out_of_memory()),
    }
}

/// The zones of the system, if the zone of a text isn't an offset. An error is reported, and its exit status returned.
pub(crate) fn zones(rt: &HostRuntime, text: &str) -> Result<TimeZoneDatabase, ExitStatus> {
    if is_fixed(text) {
        return Ok(TimeZoneDatabase::new(rt.alloc()));
    }
    match TimeZoneDatabase::from_env(rt) {
        Ok(database) => Ok(database),
        Err(_) => Err(cannot(rt, "read the time zones", out_of_memory())),
    }
}

/// The zone of a text. An unknown zone is reported, and its exit status returned.
pub(crate) fn known_zone<'a>(
    rt: &HostRuntime,
    database: &'a TimeZoneDatabase,
    text: &str,
) -> Result<TimeZone<'a>, ExitStatus> {
    match zone_of(database, text) {
        Some(zone) => Ok(zone),
        None => {
            let _printed = eprintln!(rt;
                "printd: the zone {text:?} is unknown: write a name of this system's time zones, as Europe/Berlin, or an offset, as +02:00"
            );
            Err(ExitStatus::Refused)
        }
    }
}

/// The moment of a page, if one is asked for. Another text is reported, and its exit status returned.
fn when_of(rt: &HostRuntime, text: Option<&str>) -> Result<Option<When>, ExitStatus> {
    let Some(text) = text else {
        return Ok(None);
    };
    match When::of(text) {
        Some(when) => Ok(Some(when)),
        None => {
            let _printed = eprintln!(rt;
                "printd: {text:?} is no moment: write ms since the start, a clock time as 14:05, or a date with a time as 2026-11-29T14:05"
            );
            Err(ExitStatus::Refused)
        }
    }
}

/// Adds the first `count` bytes of a chunk, which were read, to a day. The only error is out of memory.
pub(crate) fn add_read(
    follower: &mut Follower,
    chunk: &[u8],
    count: usize,
) -> Result<(), AllocError> {
    follower.add(chunk.get(..count).unwrap_or(&[]))
}

impl<'a> Reading<'a> {
    /// Creates the reading of a day of which nothing was read. An error is reported, and its exit status returned.
    fn new(
        rt: &'a HostRuntime,
        when: Option<When>,
        zone: TimeZone<'a>,
    ) -> Result<Reading<'a>, ExitStatus> {
        let segment = or_no_memory(rt, WRITE, vec![in rt.alloc(); 0; SEGMENT])?;
        Ok(Reading {
            rt,
            follower: Follower::new(rt.alloc()),
            when,
            zone,
            at: None,
            segment,
        })
    }

    /// Reads the day of files, or of standard input if there are none. An error is reported, and its exit status
    /// returned.
    fn read(&mut self, files: &[&str]) -> Result<(), ExitStatus> {
        let rt = self.rt;
        if files.is_empty() {
            return self.read_from(INPUT, &mut rt.reader());
        }
        for file in files {
            let mut reader = open(rt, file)?;
            self.read_from(file, &mut reader)?;
        }
        Ok(())
    }

    /// Reads a file of this name.
    fn read_from<R: Read>(&mut self, name: &str, reader: &mut R) -> Result<(), ExitStatus> {
        let rt = self.rt;
        or_no_memory(rt, WRITE, self.follower.begin_file(name))?;
        for _ in 0..u64::MAX {
            let count = or_cannot_with(rt, "read", name, fill(reader, &mut self.segment))?;
            if count == 0 || self.follower.is_past() {
                break;
            }
            self.take(count)?;
        }
        Ok(())
    }

    /// Takes this number of bytes that were read.
    fn take(&mut self, count: usize) -> Result<(), ExitStatus> {
        let rt = self.rt;
        or_no_memory(
            rt,
            WRITE,
            add_read(&mut self.follower, &self.segment, count),
        )?;
        for _ in 0..u64::MAX {
            self.look();
            match self.follower.turn() {
                Ok(Some(_)) => {}
                Ok(None) => break,
                Err(fault) => return Err(refused(rt, &fault)),
            }
        }
        Ok(())
    }

    /// Finds the moment of the page, once the day's clock gives it.
    fn look(&mut self) {
        if self.at.is_some() {
            return;
        }
        let Some(when) = self.when else {
            return;
        };
        if let Some(millis) = when.millis(self.follower.clock(), self.zone) {
            let at = Moment::new(millis.min(Limits::LAST_MOMENT)).unwrap_or(Moment::start());
            self.at = Some(at);
            self.follower.stop_after(at);
        }
    }

    /// The moment of the view: the one that is asked for, if the day goes on after it. If the day's clock doesn't give it,
    /// that is reported, and its exit status returned.
    fn moment(&self) -> Result<Moment, ExitStatus> {
        match &self.at {
            Some(at) if self.follower.is_past() => Ok(*at),
            Some(_) => Ok(Moment::start()),
            None if self.when.is_none() => Ok(Moment::start()),
            None => {
                let _printed = eprintln!(self.rt;
                    "printd: the day has no clock before that: write the moment in ms since the start"
                );
                Err(ExitStatus::Refused)
            }
        }
    }

    /// The view of the day of files, or of standard input. An error is reported, and its exit status returned.
    fn view_of(&mut self, files: &[&str]) -> Result<QueueView, ExitStatus> {
        self.read(files)?;
        self.view()
    }

    /// The view of the day that was read. An error is reported, and its exit status returned.
    fn view(&self) -> Result<QueueView, ExitStatus> {
        let rt = self.rt;
        if let Some(fault) = self.follower.missing() {
            return Err(refused(rt, &fault));
        }
        let moment = self.moment()?;
        match self.follower.view_at(moment) {
            Ok(Some(view)) => Ok(view),
            Ok(None) | Err(_) => Err(cannot(rt, WRITE, out_of_memory())),
        }
    }
}

/// Writes a text to a file, in place of what is there: at each moment the file is whole. An error is reported, and its
/// exit status returned.
pub(crate) fn put_file(rt: &HostRuntime, file: &str, text: &str) -> Result<(), ExitStatus> {
    or_cannot_with(rt, "write to", file, replace(rt, file, text))
}

/// Writes a text to `FILE.new`, and renames that to the file.
fn replace(rt: &HostRuntime, file: &str, text: &str) -> io::Result<()> {
    let beside = format!(in rt.alloc(); "{file}.new")?;
    fs::write(rt, &beside, text.as_bytes())?;
    fs::rename(rt, &beside, file)
}

/// Writes the metrics of a view, if they are asked for. An error is reported, and its exit status returned.
pub(crate) fn put_metrics(
    rt: &HostRuntime,
    file: Option<&str>,
    view: &QueueView,
) -> Result<(), ExitStatus> {
    let Some(file) = file else {
        return Ok(());
    };
    let text = or_no_memory(rt, WRITE, metrics_of(rt.alloc(), view))?;
    put_file(rt, file, &text)
}

/// Writes the page of a recorded day, or of each moment of one that is followed. An error is reported, and its exit
/// status returned.
pub(crate) fn run_page(rt: &HostRuntime, paging: &Paging<'_>) -> Result<ExitStatus, ExitStatus> {
    let database = zones(rt, paging.zone)?;
    let zone = known_zone(rt, &database, paging.zone)?;
    match (paging.follow, paging.to) {
        (Some(path), Some(to)) => follow(rt, paging, path, to, zone),
        _ => write_day(rt, paging, zone),
    }
}

/// The view of a recorded day at the moment of its page. An error is reported, and its exit status returned.
fn view_of_day(
    rt: &HostRuntime,
    paging: &Paging<'_>,
    zone: TimeZone<'_>,
) -> Result<QueueView, ExitStatus> {
    let when = when_of(rt, paging.at)?;
    match Reading::new(rt, when, zone) {
        Ok(mut reading) => reading.view_of(&paging.files),
        Err(status) => Err(status),
    }
}

/// Writes the page of a recorded day. An error is reported, and its exit status returned.
fn write_day(
    rt: &HostRuntime,
    paging: &Paging<'_>,
    zone: TimeZone<'_>,
) -> Result<ExitStatus, ExitStatus> {
    let view = view_of_day(rt, paging, zone)?;
    let options = PageOptions {
        zone,
        names: paging.names,
        refresh: None,
        quiet_since: None,
    };
    let page = or_no_memory(rt, WRITE, write_page(rt.alloc(), &view, &options))?;
    put_metrics(rt, paging.metrics, &view)?;
    match paging.to {
        Some(file) => put_file(rt, file, &page).map(|()| ExitStatus::Done),
        None => write_text(rt, &page),
    }
}
