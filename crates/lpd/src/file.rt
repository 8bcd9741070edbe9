//! The files of an LPD client.
ghost use Rattle.std.specs.Prelude.{◌≡◌, IfOk};
ghost use Rattle.std.specs.Option.{option_copied};
ghost use Rattle.lpd.specs.Pending.{octets_beside, has_file, is_complete, prints, contents_of, document_of, documents_of, format_of, file_of};

use crate::control::{Control, Print, PrintFormat};
use base_types::Text;
use octets::{Document, Octets};
use std::alloc::{AllocError, Global};
use std::marker::Model;

/// A data file. In clauses it is a record of the same fields.
#[derive(Drop)]
pub(crate) struct DataFile {
    pub(crate) name: Text,
    pub(crate) contents: Octets,
}

impl Model for DataFile {
    ghost use Rattle.lpd.specs.Pending.{DataRecord};

    ghost Value = { DataRecord };

    ghost view = { λ f. record { name = f.name; contents = f.contents } };
}

impl DataFile {
    /// The number of the file's octets, or 0 if it has the given name.
    pub(crate) fn octets_beside(&self, name: &Text) -> usize
        ensures { result ≡ octets_beside name.now self.now }
    {
        if name.as_bytes() == self.name.as_bytes() {
            0
        } else {
            self.contents.len()
        }
    }
}

/// A control file that describes a job. In clauses it is a record of the same fields.
#[derive(Drop)]
pub(crate) struct JobFile {
    pub(crate) name: Text,
    pub(crate) control: Control,
}

impl Model for JobFile {
    ghost use Rattle.lpd.specs.Pending.{JobFileRecord};

    ghost Value = { JobFileRecord };

    ghost view = { λ f. record { name = f.name; control = f.control } };
}

impl JobFile {
    /// Returns whether `files` has each file that the control file prints.
    pub(crate) fn is_complete(&self, files: &[DataFile]) -> bool
        ensures { result ≡ is_complete files.now self.now }
    {
        self.control
            .prints
            .iter()
            .all(|print| has_file(files, print))
    }

    /// Returns whether the control file prints a file.
    pub(crate) fn prints(&self, file: &DataFile) -> bool
        ensures { result ≡ prints self.now file.now }
    {
        self.control
            .prints
            .iter()
            .any(|print| print.name.as_bytes() == file.name.as_bytes())
    }

    /// The documents of the job, one for each print line, in order. The only error is out of memory.
    pub(crate) fn documents(
        &self,
        alloc: Global,
        files: &[DataFile],
    ) -> Result<Vec<Document>, AllocError>
        ensures { IfOk result (λ documents. documents.items ≡ documents_of self.now files.now) }
    {
        let mut documents = Vec::with_capacity(alloc, self.control.prints.len())?;
        for print in &self.control.prints {
            documents.push(document_of(alloc, files, print)?)?;
        }
        Ok(documents)
    }
}

/// Returns whether `files` has the file of a print line.
fn has_file(files: &[DataFile], print: &Print) -> bool
    ensures { result ≡ has_file files.now print.now }
{
    files
        .iter()
        .any(|file| print.name.as_bytes() == file.name.as_bytes())
}

/// The document of a print line. The only error is out of memory.
fn document_of(alloc: Global, files: &[DataFile], print: &Print) -> Result<Document, AllocError>
    ensures { IfOk result (λ document. document ≡ document_of files.now print.now) }
{
    Ok(Document {
        format: Text::copy_of(alloc, format_of(print.format).as_bytes())?,
        contents: contents_of(alloc, files, &print.name)?,
    })
}

/// The octets of the file of a name, which share the file's memory.
fn contents_of(alloc: Global, files: &[DataFile], name: &Text) -> Result<Octets, AllocError>
    ensures { IfOk result (λ contents. contents ≡ contents_of files.now name.now) }
{
    match file_of(files, name) {
        Some(file) => file.contents.share(),
        None => Octets::copy_of(alloc, &[]),
    }
}

/// The file of a name.
fn file_of<'a>(files: &'a [DataFile], name: &Text) -> Option<&'a DataFile>
    ensures { option_copied result ≡ file_of name.now files.now }
{
    files
        .iter()
        .find(|file| name.as_bytes() == file.name.as_bytes())
}

/// The document format of a print line.
fn format_of(format: PrintFormat) -> &'static str
    ensures { result.now ≡ format_of format }
{
    match format {
        PrintFormat::PlainText => "text/plain",
        PrintFormat::OctetStream => "application/octet-stream",
        PrintFormat::PostScript => "application/postscript",
    }
}
