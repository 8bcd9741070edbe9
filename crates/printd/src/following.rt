//! `printd page --follow`: the queue of a recording that grows.
use crate::chain::FileChain;
use crate::failure::{cannot, cannot_with, or_cannot, or_cannot_with, or_no_memory, out_of_memory};
use crate::page::{WRITE, add_read, put_file, put_metrics, refused};
use command_line::Paging;
use jiff::tz::TimeZone;
use playback::Follower;
use program::ExitStatus;
use queue_reports::{PageOptions, write_page};
use recordings::fill;
use spool_directory::{millis_of, now};
use std::fs::File;
use std::os::unix::fs::MetadataExt;
use std::time::{Duration, Instant};
use std::{io, thread};

/// The number of bytes that one read asks for.
const CHUNK: usize = 65_536;

/// The most reads between two tests whether the page is due.
const MOST_READS: usize = 8;

/// The ms between two looks at a file that hasn't grown.
const PAUSE: u64 = 50;

/// The least ms between two pages.
const LEAST: u64 = 1_000;

/// The ms after which a file that hasn't grown is one to which nobody writes: a server that runs writes a line each
/// second.
const QUIET: u64 = 5_000;

/// The seconds after which a browser reads the page again.
const REFRESH: u32 = 5;

/// The ms of a second, and the ns of a ms.
const SECOND: u64 = 1_000;

const MILLISECOND: u64 = 1_000_000;

/// What is written, and where to.
#[derive(Clone, Copy)]
struct Outputs<'a> {
    page: &'a str,
    metrics: Option<&'a str>,
    names: bool,
    zone: TimeZone<'a>,
}

/// The page that was written last.
#[derive(Clone, Copy)]
struct WrittenPage {
    /// When, in ms since the program's start.
    at: u64,
    /// Whether it is marked as old.
    is_old: bool,
}

/// A recording that is followed.
#[derive(Drop)]
struct FollowedRecording<'a> {
    rt: &'a HostRuntime,
    chain: FileChain<'a>,
    outputs: Outputs<'a>,
    follower: Follower,
    /// The file that is read, and its number.
    file: File,
    number: u32,
    chunk: Vec<u8>,
    start: Instant,
    /// Whether all that was there has been read once.
    has_caught_up: bool,
    /// Whether turns were played since the last page.
    is_changed: bool,
    written: Option<WrittenPage>,
}

/// When a file was last written to, in ms since the beginning of 1970.
fn time_written(file: &File) -> io::Result<u64> {
    let found = file.metadata()?;
    let seconds = u64::try_from(found.mtime()).unwrap_or(0);
    let nanos = u64::try_from(found.mtime_nsec()).unwrap_or(0);
    Ok(
        seconds
            .saturating_mul(SECOND)
            .saturating_add(nanos / MILLISECOND),
    )
}

impl<'a> FollowedRecording<'a> {
    /// Begins to follow a recording or a spool, of which nothing was read.
    fn new(
        rt: &'a HostRuntime,
        path: &'a str,
        outputs: Outputs<'a>,
    ) -> io::Result<FollowedRecording<'a>> {
        let chain = FileChain::new(rt, path)?;
        let number = chain.first()?;
        let file = chain.open(number)?;
        let chunk = vec![in rt.alloc(); 0; CHUNK]?;
        let start = Instant::now(rt)?;
        Ok(FollowedRecording {
            rt,
            chain,
            outputs,
            follower: Follower::new(rt.alloc()),
            file,
            number,
            chunk,
            start,
            has_caught_up: false,
            is_changed: false,
            written: None,
        })
    }

    /// Begins the file that is read, by its name, in the follower.
    fn name_file(&mut self) -> io::Result<()> {
        let name = self.chain.name(self.number)?;
        self.follower.begin_file(&name)?;
        Ok(())
    }

    /// Follows the recording of a path. An error is reported, and its exit status returned.
    fn run(&mut self, path: &str) -> Result<ExitStatus, ExitStatus> {
        let rt = self.rt;
        or_cannot_with(rt, "follow", path, self.name_file())?;
        for _ in 0..u64::MAX {
            if self.step()? {
                thread::sleep(rt, Duration::from_millis(PAUSE));
            }
        }
        Ok(ExitStatus::Done)
    }

    /// Reports that the recording can't be read, and returns the exit status.
    fn unread(&self, error: io::Error) -> ExitStatus {
        match self.chain.name(self.number) {
            Ok(name) => cannot_with(self.rt, "read", &name, error),
            Err(_) => cannot(self.rt, WRITE, out_of_memory()),
        }
    }

    /// What was read of the recording. An error is reported, and its exit status returned.
    fn or_unread<T>(&self, read: io::Result<T>) -> Result<T, ExitStatus> {
        match read {
            Ok(value) => Ok(value),
            Err(error) => Err(self.unread(error)),
        }
    }

    /// Reads and plays what has come, at most a few chunks, and writes the page if it is due. Returns whether all that
    /// has come was read. An error is reported, and its exit status returned.
    fn step(&mut self) -> Result<bool, ExitStatus> {
        let mut has_all = self.read()?;
        if has_all {
            has_all = !self.go_on()?;
        }
        self.has_caught_up = self.has_caught_up || has_all;
        self.write_if_due()?;
        Ok(has_all)
    }

    /// Reads and plays at most a few chunks. Returns whether all that has come was read.
    fn read(&mut self) -> Result<bool, ExitStatus> {
        for _ in 0..MOST_READS {
            let read = fill(&mut self.file, &mut self.chunk);
            let count = self.or_unread(read)?;
            if count == 0 {
                return Ok(true);
            }
            self.play(count)?;
        }
        Ok(false)
    }

    /// Plays this number of bytes that were read.
    fn play(&mut self, count: usize) -> Result<(), ExitStatus> {
        let rt = self.rt;
        or_no_memory(rt, WRITE, add_read(&mut self.follower, &self.chunk, count))?;
        match self.follower.turns() {
            Ok(has_turned) => {
                self.is_changed = self.is_changed || has_turned;
                Ok(())
            }
            Err(fault) => Err(refused(rt, &fault)),
        }
    }

    /// Goes on to the next file, if there is one and all of this file was read. Returns whether it did, or whether more
    /// of this file is to be read first.
    fn go_on(&mut self) -> Result<bool, ExitStatus> {
        let Some(next) = self.or_unread(self.chain.next(self.number, &self.file))? else {
            return Ok(false);
        };
        if self.read()? {
            let begun = self.begin(next);
            self.or_unread(begun)?;
        }
        Ok(true)
    }

    /// Begins to read the file with a number: it goes on with the day, or begins another.
    fn begin(&mut self, number: u32) -> io::Result<()> {
        self.file = self.chain.open(number)?;
        if !self.chain.goes_on(number)? {
            self.follower.begin_day();
        }
        self.number = number;
        self.name_file()
    }

    /// The time since which nothing was written to the file, in ms since the beginning of 1970, if that is long ago.
    fn quiet_since(&self) -> io::Result<Option<u64>> {
        let written = time_written(&self.file)?;
        let passed = millis_of(now(self.rt)?).saturating_sub(written);
        if passed > QUIET {
            Ok(Some(written))
        } else {
            Ok(None)
        }
    }

    /// The ms since the program's start.
    fn now(&self) -> io::Result<u64> {
        let passed = self.start.elapsed(self.rt)?.as_millis();
        Ok(u64::try_from(passed).unwrap_or(u64::MAX))
    }

    /// Returns whether a page is due; `is_old` is whether it would be marked as old.
    fn is_due(&self, now: u64, is_old: bool) -> bool {
        match self.written {
            None => self.has_caught_up,
            Some(written) => {
                let differs = self.is_changed || written.is_old != is_old;
                differs && now.saturating_sub(written.at) >= LEAST
            }
        }
    }

    /// Writes the page and the metrics, if they are due.
    fn write_if_due(&mut self) -> Result<(), ExitStatus> {
        let now = or_cannot(self.rt, "read the clock", self.now())?;
        let quiet_since = self.or_unread(self.quiet_since())?;
        let is_old = quiet_since.is_some();
        if !self.is_due(now, is_old) {
            return Ok(());
        }
        self.write(quiet_since)?;
        self.is_changed = false;
        self.written = Some(WrittenPage { at: now, is_old });
        Ok(())
    }

    /// Writes the page and the metrics, once the recording has begun.
    fn write(&self, quiet_since: Option<u64>) -> Result<(), ExitStatus> {
        let rt = self.rt;
        let Some(view) = or_no_memory(rt, WRITE, self.follower.view())? else {
            return Ok(());
        };
        let options = PageOptions {
            zone: self.outputs.zone,
            names: self.outputs.names,
            refresh: Some(REFRESH),
            quiet_since,
        };
        let page = or_no_memory(rt, WRITE, write_page(rt.alloc(), &view, &options))?;
        put_metrics(rt, self.outputs.metrics, &view)?;
        put_file(rt, self.outputs.page, &page)
    }
}

/// Follows a recording or a spool, and writes the page to a file whenever it has changed. An error is reported, and its
/// exit status returned.
pub(crate) fn follow(
    rt: &HostRuntime,
    paging: &Paging<'_>,
    path: &str,
    to: &str,
    zone: TimeZone<'_>,
) -> Result<ExitStatus, ExitStatus> {
    let outputs = Outputs {
        page: to,
        metrics: paging.metrics,
        names: paging.names,
        zone,
    };
    match FollowedRecording::new(rt, path, outputs) {
        Ok(mut following) => following.run(path),
        Err(error) => Err(cannot_with(rt, "follow", path, error)),
    }
}
