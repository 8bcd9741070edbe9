//! A printer that is a folder of files.
use crate::format::{Format, MediaType};
use crate::printer::Printer;
use crate::printer_event::{Breach, PrinterEvent};
use crate::stream::{Network, Readiness, Stream};
use adapter_core::{AdapterState, JobOrder, Pauses};
use base_types::Limits;
use std::alloc::{AllocError, Global};
use std::fs::OpenOptions;
use std::io::{ErrorKind, Write};
use std::os::unix::fs::OpenOptionsExt;
use std::rt::Files;
use std::{fs, io};

/// The first and the longest pause between two tries, in ms.
const FIRST_PAUSE: u64 = 1_000;

const LONGEST_PAUSE: u64 = 60_000;

/// The number of octets of the file with which a folder is tried.
const PROBE: usize = 4_096;

/// The most names that are tried for a file.
const NAMES: u32 = 10_000;

/// The files of a job: the file that is written, and the first name of the file that the job has once it is
/// printed.
#[derive(Drop)]
struct FolderJob {
    beside: String,
    name: String,
    ending: &'static str,
    /// The moment at which the job is printed.
    end: u64,
}

/// A printer that writes each job to a file, which is complete after the time of the job's pages. The files
/// are readable by their owner alone, and none is written over.
#[derive(Drop)]
pub struct Folder {
    alloc: Global,
    path: String,
    name: String,
    format: Option<MediaType>,
    ms_per_page: u32,
    /// The number of copies of the job.
    copies: u32,
    sheet: Option<FolderJob>,
    /// Whether the folder has to be tried before the next job: at the start, and after a failure.
    doubted: bool,
    /// Whether the last try failed.
    away: bool,
    tries: Pauses,
}

impl Folder {
    /// Creates a folder printer. The jobs of a device of this name become files of this format, if it is
    /// given. A page takes `ms_per_page` ms.
    pub fn new(
        alloc: Global,
        path: String,
        name: String,
        format: Option<MediaType>,
        ms_per_page: u32,
    ) -> Folder {
        Folder {
            alloc,
            path,
            name,
            format,
            ms_per_page,
            copies: 1,
            sheet: None,
            doubted: true,
            away: false,
            tries: Pauses::new(FIRST_PAUSE, LONGEST_PAUSE),
        }
    }

    /// Writes the job to a temporary file, once all its octets are there.
    fn write_job(&mut self, files: &impl Files, adapter: &AdapterState, now: u64) -> PrinterEvent {
        let Some(job) = adapter.job() else {
            return PrinterEvent::Nothing;
        };
        if adapter.room() != Some(0) {
            return PrinterEvent::Nothing;
        }
        let octets = adapter.due();
        match self.put(files, job.number(), octets, now) {
            Ok(sheet) => {
                self.sheet = Some(sheet);
                PrinterEvent::Nothing
            }
            Err(_) => PrinterEvent::Failed(Breach::Unwritten),
        }
    }

    /// Writes octets to a temporary file.
    fn put(&self, files: &impl Files, job: u32, octets: &[u8], now: u64) -> io::Result<FolderJob> {
        let sheet = self.sheet_of(job, octets, now)?;
        fs::create_dir_all(files, self.path.as_str())?;
        write_file(files, sheet.beside.as_str(), octets)?;
        Ok(sheet)
    }

    /// The files of a job, and the moment at which it is printed.
    fn sheet_of(&self, job: u32, octets: &[u8], now: u64) -> Result<FolderJob, AllocError> {
        let ending = match &self.format {
            Some(format) => format.ending(),
            None => Format::sniffed(octets).ending(),
        };
        let path = self.path.as_str();
        let name = self.name.as_str();
        Ok(FolderJob {
            beside: format!(in self.alloc; "{path}/.{job}-{name}.{ending}.part")?,
            name: format!(in self.alloc; "{path}/{job}-{name}")?,
            ending,
            end: now.saturating_add(self.time_of(octets.len())),
        })
    }

    /// The time in ms for this number of octets, in the number of copies of the job.
    fn time_of(&self, octets: usize) -> u64 {
        let pages = octets.div_ceil(Limits::OCTETS_PER_IMPRESSION).max(1) as u64;
        pages
            .saturating_mul(u64::from(self.copies))
            .saturating_mul(u64::from(self.ms_per_page))
    }

    /// Tries the folder, if a try is due.
    fn try_again(&mut self, files: &impl Files, now: u64) -> PrinterEvent {
        if !self.tries.is_due(now) {
            return PrinterEvent::Nothing;
        }
        if try_folder(self.alloc, files, self.path.as_str(), self.name.as_str()).is_ok() {
            self.doubted = false;
            self.away = false;
            return PrinterEvent::Back;
        }
        self.tries.tried(now);
        if std::mem::replace(&mut self.away, true) {
            PrinterEvent::Nothing
        } else {
            PrinterEvent::Away
        }
    }
}

impl<S: Stream> Printer<S> for Folder {
    fn begin(&mut self, order: &JobOrder) {
        self.copies = order.copies;
    }

    /// Writes the job once its octets are there, and completes it once its time has passed.
    fn turn<F: Files, N: Network<Stream = S>>(
        &mut self,
        files: &F,
        _network: &N,
        adapter: &mut AdapterState,
        now: u64,
    ) -> PrinterEvent {
        match &self.sheet {
            None if self.doubted => self.try_again(files, now),
            None => self.write_job(files, adapter, now),
            Some(sheet) if now < sheet.end => PrinterEvent::Nothing,
            Some(sheet) => {
                let named = keep(self.alloc, files, sheet);
                take_all(adapter);
                match named {
                    Ok(()) => PrinterEvent::Printed(None),
                    Err(_) => PrinterEvent::Failed(Breach::Unwritten),
                }
            }
        }
    }

    fn notified(&mut self, _readiness: Readiness) {}

    /// Removes the temporary file.
    fn drop_job<F: Files>(&mut self, files: &F) {
        if let Some(sheet) = &self.sheet {
            let _removed = fs::remove_file(files, sheet.beside.as_str());
        }
        self.sheet = None;
    }

    fn doubt(&mut self, pause: u64, now: u64) {
        self.doubted = true;
        self.tries = Pauses::new(pause, LONGEST_PAUSE);
        self.tries.tried(now);
    }

    fn has_worked(&self) -> bool {
        false
    }

    fn pause(&self, now: u64, _has_job: bool) -> Option<u64> {
        match &self.sheet {
            Some(sheet) => Some(sheet.end.saturating_sub(now)),
            None if self.doubted => Some(self.tries.left(now)),
            None => None,
        }
    }
}

/// Tries whether a file can be written into a folder, which is created if it isn't there.
pub fn try_folder(alloc: Global, files: &impl Files, path: &str, name: &str) -> io::Result<()> {
    fs::create_dir_all(files, path)?;
    let probe = format!(in alloc; "{path}/.{name}.part")?;
    let written = write_file(files, probe.as_str(), &[0; PROBE]);
    let _removed = fs::remove_file(files, probe.as_str());
    written
}

/// Writes octets to a new file, which only its owner can read. A file of the name is removed before.
fn write_file(files: &impl Files, path: &str, octets: &[u8]) -> io::Result<()> {
    let _removed = fs::remove_file(files, path);
    let mut file = OpenOptions::new()
        .write(true)
        .create_new(true)
        .mode(0o600)
        .open(files, path)?;
    file.write_all(octets)
}

/// Gives the temporary file of a job the first of its names that no file has.
fn keep(alloc: Global, files: &impl Files, sheet: &FolderJob) -> io::Result<()> {
    for number in 1..=NAMES {
        let name = name_of(alloc, sheet, number)?;
        match claim(files, name.as_str()) {
            Ok(()) => return fs::rename(files, sheet.beside.as_str(), name.as_str()),
            Err(error) if error.kind() == ErrorKind::AlreadyExists => {}
            Err(error) => return Err(error),
        }
    }
    Err(io::Error::from(ErrorKind::AlreadyExists))
}

/// The name of a job's file, of this number: from the second on the name has the number.
fn name_of(alloc: Global, sheet: &FolderJob, number: u32) -> Result<String, AllocError> {
    let name = sheet.name.as_str();
    let ending = sheet.ending;
    if number == 1 {
        format!(in alloc; "{name}.{ending}")
    } else {
        format!(in alloc; "{name}-{number}.{ending}")
    }
}

/// Creates an empty file, over which the temporary file is then renamed: no other file has its name.
fn claim(files: &impl Files, path: &str) -> io::Result<()> {
    OpenOptions::new()
        .write(true)
        .create_new(true)
        .mode(0o600)
        .open(files, path)?;
    Ok(())
}

/// Takes all octets of a job.
fn take_all(adapter: &mut AdapterState) {
    let count = adapter.due().len();
    if count > 0 {
        adapter.send(count);
    }
    if adapter.is_copy_sent() {
        adapter.end_copy();
    }
}
