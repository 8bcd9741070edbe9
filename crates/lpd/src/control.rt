//! The control files of jobs (RFC 1179, section 7).
ghost use Rattle.std.specs.Prelude.{◌≡◌, OnOk, Some, map};
ghost use Rattle.std.specs.Option.{option_or};
ghost use Rattle.lpd.specs.Control.{before, alone, nothing, joined, whole, control_in};
ghost use Rattle.lpd.specs.ControlLine.{line_record, Gives};

use crate::control_line::{ControlLine, read_line};
use base_types::Text;
use std::alloc::{AllocError, Global};
use std::marker::Model;
use text::parts;
use thiserror::Error;

/// The fault of a control file.
#[derive(Clone, Copy, Debug, PartialEq, Eq, Error)]
pub enum ControlFault {
    /// No line names the client's host.
    #[error("no host")]
    NoHost,
    /// No line names the user.
    #[error("no user")]
    NoUser,
    /// No line names a file to print.
    #[error("nothing to print")]
    NoPrintLine,
    /// A line of no known form.
    #[error("a bad line")]
    BadLine,
    /// A line of a format that isn't printed.
    #[error("a format that isn't printed here")]
    FormatLeftOut,
}

/// Why a control file isn't read.
#[derive(Clone, Copy, Debug, PartialEq, Eq, Error)]
pub enum ControlError {
    /// The first faulty line, or else the first line that is missing.
    #[error("{0}")]
    Fault(ControlFault),
    #[error("out of memory")]
    OutOfMemory,
}

impl From<ControlFault> for ControlError {
    ghost use Rattle.std.specs.Prelude.{◌≡◌};
    ghost use Rattle.lpd.specs.declared.control.ControlError.TheVariants.{Fault};

    ghost from_gives = { λ fault error. error ≡ Fault fault };

    fn from(fault: ControlFault) -> ControlError {
        ControlError::Fault(fault)
    }
}

impl From<AllocError> for ControlError {
    ghost use Rattle.std.specs.Prelude.{◌≡◌};
    ghost use Rattle.lpd.specs.declared.control.ControlError.TheVariants.{OutOfMemory};

    ghost from_gives = { λ _ error. error ≡ OutOfMemory };

    fn from(_: AllocError) -> ControlError {
        ControlError::OutOfMemory
    }
}

/// The format of a data file, by the letter of its print line (RFC 1179, sections 7.15 to 7.29).
#[derive(Clone, Copy, PartialEq, Eq)]
pub enum PrintFormat {
    /// Text, formatted or paginated.
    PlainText,
    /// Bytes that are printed without a change.
    OctetStream,
    PostScript,
}

/// A print line: a data file and its format.
#[derive(Drop)]
pub struct Print {
    pub format: PrintFormat,
    /// The name of the data file.
    pub name: Text,
}

/// The job that a control file describes. In clauses it is a record of the same fields.
#[derive(Drop)]
pub struct Control {
    /// The client's host.
    pub host: Text,
    /// The name of the user.
    pub owner: Text,
    /// The name of the job, else that of its source file, else `untitled`.
    pub name: Text,
    /// The print lines, in order: at least one. A file may be in more than one of them.
    pub prints: Vec<Print>,
}

impl Model for Control {
    ghost use Rattle.lpd.specs.Control.{ControlRecord};

    ghost Value = { ControlRecord };

    ghost view = { λ c. record { host = c.host; owner = c.owner; name = c.name; prints = c.prints.items } };
}

/// The content of the lines that were read so far. In clauses it is a record of the same fields.
#[derive(Drop)]
struct Draft {
    host: Option<Text>,
    owner: Option<Text>,
    job_name: Option<Text>,
    source_name: Option<Text>,
    prints: Vec<Print>,
}

impl Model for Draft {
    ghost use Rattle.lpd.specs.Control.{Draft};

    ghost Value = { Draft };

    ghost view = { λ d. record {
      host = d.host;
      owner = d.owner;
      job_name = d.job_name;
      source_name = d.source_name;
      prints = d.prints.items;
    } };
}

/// Reads a control file.
///
/// The error is the first faulty line, or out of memory. If no line is faulty, it is a missing host, a
/// missing user, or a missing print line, in this order.
pub fn read_control(alloc: Global, text: &[u8]) -> Result<Control, ControlError>
    ensures { Gives result (control_in text.now) }
{
    let texts = parts(alloc, text, b'\n')?;
    let Some((last, lines)) = texts.split_last() else {
        return Err(ControlError::Fault(ControlFault::NoHost));
    };
    let draft = read_lines(alloc, lines)?;
    if !last.is_empty() {
        return Err(ControlError::Fault(ControlFault::BadLine));
    }
    finish(alloc, draft)
}

/// Reads lines, each without its line feed, into a draft. The error is the first fault, or out of memory.
fn read_lines(alloc: Global, lines: &[&[u8]]) -> Result<Draft, ControlError>
    ensures { Gives result (joined nothing (map (λ line. line.now) lines.now)) }
{
    let mut draft = Draft::new(alloc);
    for line in lines {
        let line = read_line(alloc, *line)??;
        draft.add(line)?;
    }
    Ok(draft)
}

/// Makes the job of a draft, which needs a host, a user and a print line.
fn finish(alloc: Global, draft: Draft) -> Result<Control, ControlError>
    ensures { Gives result (whole draft) }
{
    let Draft {
        host,
        owner,
        job_name,
        source_name,
        prints,
    } = draft;
    let host = host.ok_or(ControlFault::NoHost)?;
    let owner = owner.ok_or(ControlFault::NoUser)?;
    if prints.is_empty() {
        return Err(ControlError::Fault(ControlFault::NoPrintLine));
    }
    let name = match job_name.or(source_name) {
        Some(name) => name,
        None => Text::copy_of(alloc, b"untitled")?,
    };
    Ok(Control {
        host,
        owner,
        name,
        prints,
    })
}

impl Draft {
    /// Creates an empty draft.
    fn new(alloc: Global) -> Draft
        ensures { result ≡ nothing }
    {
        Draft {
            host: None,
            owner: None,
            job_name: None,
            source_name: None,
            prints: Vec::new(alloc),
        }
    }

    /// Adds the content of a line. Of each kind the first line counts; print lines are all kept.
    fn add(&mut self, line: ControlLine) -> Result<(), AllocError>
        ensures { OnOk result (self.new ≡ before self.old (alone (line_record line))) }
    {
        match line {
            ControlLine::Host(name) => keep_first(&mut self.host, name),
            ControlLine::User(name) => keep_first(&mut self.owner, name),
            ControlLine::JobName(name) => keep_first(&mut self.job_name, name),
            ControlLine::SourceName(name) => keep_first(&mut self.source_name, name),
            ControlLine::Prints(print) => self.prints.push(print)?,
            ControlLine::Ignored => {}
        }
        Ok(())
    }
}

/// Sets a name, if there is none yet.
fn keep_first(slot: &mut Option<Text>, name: Text)
    ensures { slot.new ≡ option_or slot.old (Some name) }
{
    if slot.is_none() {
        *slot = Some(name);
    }
}
