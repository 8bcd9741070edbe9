//! The files that an LPD client has sent and that aren't part of a job yet.
ghost use Rattle.std.specs.Prelude.{◌≡◌, ◌+◌, not, nat_lt, IfOk, OnOk, OnErr, filter, remove, slice_get};
ghost use Rattle.std.specs.Option.{option_copied, option_map_or};
ghost use Rattle.base_types.specs.declared.limits.TheConstants.Limits.{JOB_OCTETS};
ghost use Rattle.lpd.specs.Pending.{no_files, with_file, with_control, is_too_much, all_beside, first_complete, documents_of, without, prints, other_files, other_controls, place_of_file, place_of_control};

use crate::file::{DataFile, JobFile};
use crate::item::FileKind;
use base_types::{Limits, Text};
use octets::Document;
use std::alloc::{AllocError, Global};
use std::marker::Model;

/// Pending files. In clauses they are a record of the same fields.
#[derive(Drop)]
pub(crate) struct Pending {
    controls: Vec<JobFile>,
    files: Vec<DataFile>,
}

impl Model for Pending {
    ghost use Rattle.lpd.specs.Pending.{PendingRecord};

    ghost Value = { PendingRecord };

    ghost view = { λ p. record { controls = p.controls.items; files = p.files.items } };
}

impl Pending {
    /// Creates an empty set of files.
    pub(crate) fn new(alloc: Global) -> Pending
        ensures { result ≡ no_files }
    {
        Pending {
            controls: Vec::new(alloc),
            files: Vec::new(alloc),
        }
    }

    /// Returns whether a file of a kind, name and size exceeds a limit.
    pub(crate) fn is_too_much(&self, kind: FileKind, name: &Text, size: u32) -> bool
        ensures { result ≡ is_too_much kind name.now size self.now }
    {
        match kind {
            FileKind::Control => self.other_controls(name) >= Limits::JOB_DOCUMENTS,
            FileKind::Data => {
                self.other_files(name) >= Limits::JOB_DOCUMENTS
                    || is_above(&self.files, name, size as usize)
            }
        }
    }

    /// Returns the number of control files of other names.
    fn other_controls(&self, name: &Text) -> usize
        ensures { result ≡ other_controls name.now self.now.controls }
    {
        self.controls
            .iter()
            .filter(|control| !(name.as_bytes() == control.name.as_bytes()))
            .count()
    }

    /// Returns the number of data files of other names.
    fn other_files(&self, name: &Text) -> usize
        ensures { result ≡ other_files name.now self.now.files }
    {
        self.files
            .iter()
            .filter(|file| !(name.as_bytes() == file.name.as_bytes()))
            .count()
    }

    /// Keeps a data file, in place of one of its name. The only error is out of memory, and nothing is
    /// changed then.
    pub(crate) fn keep_file(&mut self, file: DataFile) -> Result<(), AllocError>
        ensures ok { OnOk result (self.new ≡ record self.old { files = with_file file self.old.files }) }
        ensures err { OnErr result (self.new ≡ self.old) }
    {
        match place_of_file(&self.files, &file.name) {
            Some(place) => {
                self.files[place] = file;
            }
            None => self.files.push(file)?,
        }
        Ok(())
    }

    /// Keeps a control file, in place of one of its name. The only error is out of memory, and nothing is
    /// changed then.
    pub(crate) fn keep_control(&mut self, control: JobFile) -> Result<(), AllocError>
        ensures ok { OnOk result (self.new ≡ record self.old { controls = with_control control self.old.controls }) }
        ensures err { OnErr result (self.new ≡ self.old) }
    {
        match place_of_control(&self.controls, &control.name) {
            Some(place) => {
                self.controls[place] = control;
            }
            None => self.controls.push(control)?,
        }
        Ok(())
    }

    /// The place of the first control file that is complete.
    pub(crate) fn first_complete(&self) -> Option<usize>
        ensures { result ≡ first_complete self.now }
    {
        let files = self.files.as_slice();
        self.controls
            .iter()
            .position(|control| control.is_complete(files))
    }

    /// The control file at a place.
    pub(crate) fn control(&self, place: usize) -> Option<&JobFile>
        ensures { option_copied result ≡ slice_get self.now.controls place }
    {
        self.controls.get(place)
    }

    /// The documents of a control file's job. The only error is out of memory.
    pub(crate) fn documents(
        &self,
        alloc: Global,
        control: &JobFile,
    ) -> Result<Vec<Document>, AllocError>
        ensures { IfOk result (λ documents. documents.items ≡ documents_of control.now self.now.files) }
    {
        control.documents(alloc, &self.files)
    }

    /// Removes the files of the job at a place.
    pub(crate) fn drop_job(&mut self, place: usize)
        ensures { self.new ≡ without place self.old }
    {
        if let Some(control) = self.take_control(place) {
            self.drop_printed(&control);
        }
    }

    /// Removes and returns the control file at a place.
    fn take_control(&mut self, place: usize) -> Option<JobFile>
        ensures taken { result ≡ slice_get self.old.controls place }
        ensures left { self.new ≡ option_map_or (λ control. record self.old { controls = remove self.old.controls place }) result self.old }
    {
        if place >= self.controls.len() {
            return None;
        }
        Some(self.controls.remove(place))
    }

    /// Removes the files that a control file prints.
    fn drop_printed(&mut self, control: &JobFile)
        ensures { self.new ≡ record self.old { files = filter (λ file. not (prints control.now file)) self.old.files } }
    {
        self.files.retain(|file| !control.prints(file));
    }
}

/// The place of the data file of a name.
fn place_of_file(files: &[DataFile], name: &Text) -> Option<usize>
    ensures { result ≡ place_of_file name.now files.now }
{
    files
        .iter()
        .position(|file| name.as_bytes() == file.name.as_bytes())
}

/// The place of the control file of a name.
fn place_of_control(controls: &[JobFile], name: &Text) -> Option<usize>
    ensures { result ≡ place_of_control name.now controls.now }
{
    controls
        .iter()
        .position(|control| name.as_bytes() == control.name.as_bytes())
}

/// Returns whether the octets of the files of other names and `size` together exceed [`Limits::JOB_OCTETS`].
fn is_above(files: &[DataFile], name: &Text, size: usize) -> bool
    ensures { result ≡ nat_lt JOB_OCTETS (all_beside name.now files.now + size) }
{
    let mut room = Limits::JOB_OCTETS;
    for file in files {
        let octets = file.octets_beside(name);
        if room < octets {
            return true;
        }
        room -= octets;
    }
    room < size
}
