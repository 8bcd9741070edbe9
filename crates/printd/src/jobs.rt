//! `printd jobs`: the jobs of recorded days.
use crate::failure::{cannot_with, or_cannot, or_no_memory, out_of_memory, say};
use crate::input::open;
use playback::{DayFault, Follower, peek};
use program::ExitStatus;
use queue_reports::AccountTable;
use recordings::{GOES_ON, fill};
use std::alloc::AllocError;
use std::fs::File;
use std::io;
use std::io::Write;

/// The number of bytes that one read asks for.
const CHUNK: usize = 65_536;

/// The work of the command, in reports.
const WRITE: &str = "write the jobs";

/// Why the jobs of a file aren't written.
#[derive(Drop)]
enum JobsFault {
    Day(DayFault),
    /// The file can't be read.
    Read(io::Error),
}

/// The days of some files, of which the last is played, and the rows of the days before.
#[derive(Drop)]
struct JobDays<'a> {
    rt: &'a HostRuntime,
    follower: Follower,
    table: &'a mut AccountTable,
    /// Whether a file of the day was begun.
    has_begun: bool,
}

impl From<DayFault> for JobsFault {
    fn from(fault: DayFault) -> JobsFault {
        JobsFault::Day(fault)
    }
}

impl From<io::Error> for JobsFault {
    fn from(error: io::Error) -> JobsFault {
        JobsFault::Read(error)
    }
}

impl From<AllocError> for JobsFault {
    fn from(_error: AllocError) -> JobsFault {
        JobsFault::Day(DayFault::OutOfMemory)
    }
}

impl<'a> JobDays<'a> {
    /// Creates the days of no files, whose rows are added to a table.
    fn new(rt: &'a HostRuntime, table: &'a mut AccountTable) -> JobDays<'a> {
        let mut follower = Follower::new(rt.alloc());
        follower.keep_accounts();
        JobDays {
            rt,
            follower,
            table,
            has_begun: false,
        }
    }

    /// Plays the turns of these bytes.
    fn play(&mut self, bytes: &[u8]) -> Result<(), DayFault> {
        self.follower.add(bytes)?;
        self.follower.turns()?;
        Ok(())
    }

    /// Plays a file of this name: it goes on with the day of the file before, or begins another day.
    fn play_file(&mut self, name: &str, file: &mut File) -> Result<(), JobsFault> {
        let peeked = peek(self.rt.alloc(), file)?;
        if self.has_begun && !peeked.bytes.starts_with(GOES_ON) {
            self.end_day()?;
        }
        self.has_begun = true;
        self.follower.begin_file(name)?;
        self.play(&peeked.bytes)?;
        self.play_rest(file)
    }

    /// Plays the bytes of a file that weren't read.
    fn play_rest(&mut self, file: &mut File) -> Result<(), JobsFault> {
        let mut chunk = vec![in self.rt.alloc(); 0; CHUNK]?;
        for _ in 0..u64::MAX {
            let count = fill(file, &mut chunk)?;
            if count == 0 {
                break;
            }
            self.play(&chunk[..count])?;
        }
        match self.follower.missing() {
            Some(fault) => Err(JobsFault::Day(fault)),
            None => Ok(()),
        }
    }

    /// Adds the rows of the day.
    fn end_day(&mut self) -> Result<(), AllocError> {
        let day = self.follower.take_accounts()?;
        self.follower.begin_day();
        match day {
            Some(day) => self.table.add_day(&day),
            None => Ok(()),
        }
    }
}

/// Reports why the jobs of a file aren't written, and returns the exit status.
fn report(rt: &HostRuntime, name: &str, trouble: JobsFault) -> ExitStatus {
    match trouble {
        JobsFault::Read(error) => cannot_with(rt, "read", name, error),
        JobsFault::Day(DayFault::OutOfMemory) => cannot_with(rt, "play", name, out_of_memory()),
        JobsFault::Day(DayFault::Reported(status, sentence)) => {
            say(rt, &sentence);
            status
        }
    }
}

/// Plays the files, up to the first that can't be played. That is reported, and its exit status returned.
fn play_all(
    rt: &HostRuntime,
    days: &mut JobDays<'_>,
    files: &[&str],
) -> Result<ExitStatus, ExitStatus> {
    for name in files {
        let mut file = open(rt, name)?;
        if let Err(trouble) = days.play_file(name, &mut file) {
            return Ok(report(rt, name, trouble));
        }
    }
    Ok(ExitStatus::Done)
}

/// Plays the files, and adds the rows of the last day. An error is reported, and its exit status returned.
fn add_all(
    rt: &HostRuntime,
    days: &mut JobDays<'_>,
    files: &[&str],
) -> Result<ExitStatus, ExitStatus> {
    let status = play_all(rt, days, files)?;
    or_no_memory(rt, WRITE, days.end_day())?;
    Ok(status)
}

/// Adds the jobs of the days of some files to a table. An error is reported, and its exit status returned.
fn add_days(
    rt: &HostRuntime,
    table: &mut AccountTable,
    files: &[&str],
) -> Result<ExitStatus, ExitStatus> {
    let mut days = JobDays::new(rt, table);
    add_all(rt, &mut days, files)
}

/// Writes the jobs of the days of some files, up to the first line that can't be played. An error is reported, and its
/// exit status returned.
pub(crate) fn run_jobs(rt: &HostRuntime, files: &[&str]) -> Result<ExitStatus, ExitStatus> {
    let mut table = or_no_memory(rt, WRITE, AccountTable::new(rt.alloc()))?;
    let status = add_days(rt, &mut table, files)?;
    let rows = or_no_memory(rt, WRITE, table.finish())?;
    or_cannot(
        rt,
        "write to standard output",
        io::writer(rt).write_all(&rows),
    )?;
    Ok(status)
}
