//! A session of an LPD client.
ghost use Rattle.std.specs.Prelude.{◌≡◌, IfOk, OnErr, IsSome, true};
ghost use Rattle.lpd.specs.Control.{control_in};
ghost use Rattle.lpd.specs.Pending.{first_complete, with_file};
ghost use Rattle.lpd.specs.Session.{opened, aborted, admits, announced, unannounced, keeps, kept, is_kept, file_kept, is_valid_control, control_kept, sent_by, sent_at, without_job};

use crate::control::{ControlError, read_control};
use crate::file::{DataFile, JobFile};
use crate::item::{FileHead, FileKind};
use crate::pending::Pending;
use crate::sent::SentJob;
use base_types::Text;
use octets::Octets;
use std::alloc::{AllocError, Global};
use std::marker::Model;

/// A session that receives jobs for a queue (RFC 1179, section 6). In clauses it is a record of the queue,
/// the pending files and the announced file.
#[derive(Drop)]
pub struct Session {
    alloc: Global,
    queue: Text,
    pending: Pending,
    coming: Option<FileHead>,
}

impl Model for Session {
    ghost use Rattle.lpd.specs.Session.{SessionState};

    ghost Value = { SessionState };

    ghost view = { λ s. record { queue = s.queue; pending = s.pending; coming = s.coming } };
}

impl Session {
    /// Creates the session of a queue, without files.
    pub fn new(alloc: Global, queue: Text) -> Session
        ensures { result ≡ opened queue }
    {
        Session {
            alloc,
            queue,
            pending: Pending::new(alloc),
            coming: None,
        }
    }

    /// Drops all files that the client has sent (RFC 1179, section 6.1).
    pub fn abort(&mut self)
        ensures { self.new ≡ aborted self.old }
    {
        self.pending = Pending::new(self.alloc);
        self.coming = None;
    }

    /// Returns whether an announced file is admitted: with it, at most 100 files of its kind are pending, and
    /// pending data is within [`base_types::Limits::JOB_OCTETS`]. A file of the same name, which is replaced,
    /// isn't counted.
    pub fn admits(&self, head: &FileHead) -> bool
        ensures { result ≡ admits head.now self.now }
    {
        !self.pending.is_too_much(head.kind, &head.name, head.length)
    }

    /// Announces a file, which comes next (RFC 1179, sections 6.2 and 6.3).
    pub fn announce(&mut self, head: FileHead)
        ensures { self.new ≡ announced head self.old }
    {
        self.coming = Some(head);
    }

    /// Takes the file that was announced. Returns whether it is kept; a control file that describes no job
    /// isn't.
    ///
    /// The only error is out of memory: then the file isn't kept, and none is announced.
    pub fn take_file(&mut self, contents: &[u8]) -> Result<bool, AllocError>
        ensures answer { IfOk result (λ answer. answer ≡ keeps contents.now self.old) }
        ensures ok { IfOk result (λ answer. self.new ≡ kept contents.now self.old) }
        ensures err { OnErr result (self.new ≡ unannounced self.old) }
    {
        match self.coming.take() {
            Some(head) => self.keep(head, contents),
            None => Ok(false),
        }
    }

    /// The place of the first control file whose data files are all pending.
    pub fn complete(&self) -> Option<usize>
        ensures { result ≡ first_complete self.now.pending }
    {
        self.pending.first_complete()
    }

    /// The job of the control file at a place, if there is one. Its documents share the memory of the
    /// session's files. The only error is out of memory.
    pub fn job_at(&self, place: usize) -> Result<Option<SentJob>, AllocError>
        ensures ok { IfOk result (λ job. job ≡ sent_at place self.now) }
        ensures err { OnErr result (IsSome (sent_at place self.now)) }
    {
        match self.pending.control(place) {
            Some(control) => Ok(Some(self.job_of(control)?)),
            None => Ok(None),
        }
    }

    /// Removes the files of the job at a place.
    pub fn drop_job(&mut self, place: usize)
        ensures { self.new ≡ without_job place self.old }
    {
        self.pending.drop_job(place);
    }

    /// The job of a control file. The only error is out of memory.
    fn job_of(&self, control: &JobFile) -> Result<SentJob, AllocError>
        ensures { IfOk result (λ job. job ≡ sent_by self.now control.now) }
    {
        Ok(SentJob {
            queue: Text::copy_of(self.alloc, self.queue.as_bytes())?,
            owner: Text::copy_of(self.alloc, control.control.owner.as_bytes())?,
            name: Text::copy_of(self.alloc, control.control.name.as_bytes())?,
            documents: self.pending.documents(self.alloc, control)?,
        })
    }

    /// Keeps a file, by its kind.
    fn keep(&mut self, head: FileHead, contents: &[u8]) -> Result<bool, AllocError>
        ensures answer { IfOk result (λ answer. answer ≡ is_kept head.kind contents.now) }
        ensures ok { IfOk result (λ answer. self.new ≡ record self.old { pending = file_kept head.kind head.name contents.now self.old.pending }) }
        ensures err { OnErr result (self.new ≡ self.old) }
    {
        match head.kind {
            FileKind::Control => self.keep_control(head.name, contents),
            FileKind::Data => self.keep_data(head.name, contents),
        }
    }

    /// Keeps a data file. Returns true.
    fn keep_data(&mut self, name: Text, contents: &[u8]) -> Result<bool, AllocError>
        ensures answer { IfOk result (λ answer. answer ≡ true) }
        ensures ok { IfOk result (λ answer. self.new ≡ record self.old { pending = record self.old.pending { files = with_file (record { name = name; contents = contents.now }) self.old.pending.files } }) }
        ensures err { OnErr result (self.new ≡ self.old) }
    {
        let contents = Octets::copy_of(self.alloc, contents)?;
        self.pending.keep_file(DataFile { name, contents })?;
        Ok(true)
    }

    /// Keeps a control file, if it describes a job. Returns whether it does.
    fn keep_control(&mut self, name: Text, contents: &[u8]) -> Result<bool, AllocError>
        ensures answer { IfOk result (λ answer. answer ≡ is_valid_control (control_in contents.now)) }
        ensures ok { IfOk result (λ answer. self.new ≡ record self.old { pending = control_kept name self.old.pending (control_in contents.now) }) }
        ensures err { OnErr result (self.new ≡ self.old) }
    {
        match read_control(self.alloc, contents) {
            Ok(control) => {
                self.pending.keep_control(JobFile { name, control })?;
                Ok(true)
            }
            Err(ControlError::Fault(_)) => Ok(false),
            Err(ControlError::OutOfMemory) => Err(AllocError),
        }
    }
}
