//! The documents of jobs that are refused.
use crate::directory::Directory;
use journal::{Resubmitted, SavedJob};
use octets::{Document, Octets};
use std::fs::{File, OpenOptions};
use std::io;
use std::io::Write;
use std::os::unix::fs::OpenOptionsExt;

/// Writes octets to a file.
fn write(file: &mut File, octets: &Octets) -> io::Result<()> {
    let mut start = 0;
    for _ in 0..u64::MAX {
        if start >= octets.len() {
            break;
        }
        let segment = octets.segment(start);
        file.write_all(segment)?;
        start = start.saturating_add(segment.len());
    }
    file.sync_all()
}

impl Directory<'_> {
    /// Keeps a document in the file of a name, which only the server's user can read.
    fn keep_document(&self, name: &str, document: &Document) -> io::Result<()> {
        let path = self.path_of(name)?;
        let mut file = OpenOptions::new()
            .write(true)
            .create(true)
            .truncate(true)
            .mode(0o600)
            .open(self.rt, &path)?;
        write(&mut file, &document.contents)
    }

    /// Keeps the documents of a job, each in a file of its own: `job-17-1` is the first of job 17.
    fn keep_documents(&self, job: &SavedJob) -> io::Result<()> {
        let id = job.id.number();
        let mut number = 0_u64;
        for document in &job.documents {
            number = number.saturating_add(1);
            let name = format!(in self.alloc(); "job-{id}-{number}")?;
            self.keep_document(&name, document)?;
        }
        self.sync()
    }

    /// Keeps the documents of the jobs that were refused.
    pub(crate) fn keep_refused(&self, jobs: &[Resubmitted]) -> io::Result<()> {
        for resubmitted in jobs {
            if resubmitted.new.is_none() {
                self.keep_documents(&resubmitted.job)?;
            }
        }
        Ok(())
    }
}
