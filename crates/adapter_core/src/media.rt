//! The media that a printer has loaded.
ghost use Rattle.std.specs.Prelude.{◌≡◌, IfOk, OnOk, OnErr, Some, None, option_map};
ghost use Rattle.std.specs.Str.{bytes_eq};
ghost use Rattle.base_types.specs.Report.{report_of};
ghost use Rattle.adapter_core.specs.Media.{are_same, is_reported, media_report, reported_after};

use base_types::{Report, Text};
use std::alloc::{AllocError, Global};
use std::marker::Model;

/// The loaded media of a printer, and those that were last reported to the server. In clauses it is a record
/// of both.
#[derive(Drop)]
pub struct LoadedMedia {
    alloc: Global,
    loaded: Option<Vec<Text>>,
    reported: Option<Vec<Text>>,
}

impl Model for LoadedMedia {
    ghost use Rattle.std.specs.Prelude.{option_map};
    ghost use Rattle.adapter_core.specs.Media.{MediaRecord};

    ghost Value = { MediaRecord };

    ghost view = { λ m. record { loaded = option_map (λ names. names.items) m.loaded; reported = option_map (λ names. names.items) m.reported } };
}

impl LoadedMedia {
    /// Creates the record of a printer that hasn't reported its media.
    pub fn new(alloc: Global) -> LoadedMedia
        ensures { result ≡ record { loaded = None; reported = None } }
    {
        LoadedMedia {
            alloc,
            loaded: None,
            reported: None,
        }
    }

    /// Begins a connection to the server, without a report.
    pub fn link(&mut self)
        ensures { self.new ≡ record self.old { reported = None } }
    {
        self.reported = None;
    }

    /// Records that exactly these media are loaded.
    pub fn load(&mut self, names: Vec<Text>)
        ensures { self.new ≡ record self.old { loaded = Some names.items } }
    {
        self.loaded = Some(names);
    }

    /// The report of the media, if the last report was another list or there was none. The only error is out
    /// of memory, and nothing is recorded as reported then.
    pub fn next_report(&mut self) -> Result<Option<Report>, AllocError>
        ensures report { IfOk result (λ report. option_map report_of report ≡ media_report self.old.loaded self.old.reported) }
        ensures reported { OnOk result (self.new ≡ record self.old { reported = reported_after self.old.loaded self.old.reported }) }
        ensures err { OnErr result (self.new ≡ self.old) }
    {
        let Some(names) = &self.loaded else {
            self.reported = None;
            return Ok(None);
        };
        if is_reported(names, &self.reported) {
            return Ok(None);
        }
        let media = copied(self.alloc, names)?;
        self.reported = Some(copied(self.alloc, names)?);
        Ok(Some(Report::Media(media)))
    }
}

/// Returns whether the names were last reported to the server.
fn is_reported(names: &[Text], reported: &Option<Vec<Text>>) -> bool
    ensures { result ≡ is_reported names.now (option_map (λ reported. reported.items) reported.now) }
{
    match reported {
        Some(reported) => are_same(names, reported),
        None => false,
    }
}

/// Returns whether the lists have the same names, in the same order.
fn are_same(names: &[Text], others: &[Text]) -> bool
    ensures { result ≡ are_same names.now others.now }
{
    match names {
        [] => others.is_empty(),
        [name, rest @ ..] => match others {
            [] => false,
            [other, more @ ..] => is_same(name, other) && are_same(rest, more),
        },
    }
}

/// Returns whether two names are the same.
fn is_same(name: &Text, other: &Text) -> bool
    ensures { result ≡ bytes_eq name.now other.now }
{
    name.as_bytes() == other.as_bytes()
}

/// A copy of the names. The only error is out of memory.
fn copied(alloc: Global, names: &[Text]) -> Result<Vec<Text>, AllocError>
    ensures { IfOk result (λ copies. copies.items ≡ names.now) }
{
    let mut copies = Vec::new(alloc);
    for name in names {
        copies.push(name.copied(alloc)?)?;
    }
    Ok(copies)
}
