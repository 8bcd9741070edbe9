//! The words of `printd page`.

use crate::subcommand::Subcommand;
use crate::words_error::WordsError;
use clap::ArgMatches;
use std::alloc::Global;

/// The options of `printd page`.
#[derive(Debug, Drop)]
pub struct Paging<'a> {
    /// The files of the recorded day, in order. If there are none, the day is that of standard input.
    pub files: Vec<&'a str>,
    /// The recording or the directory of a spool that is followed, in place of the files.
    pub follow: Option<&'a str>,
    /// The moment of the page, as it is written. Without one it is the end of the day.
    pub at: Option<&'a str>,
    /// The file of the page; `None` for standard output.
    pub to: Option<&'a str>,
    /// The file of the metrics, if they are written.
    pub metrics: Option<&'a str>,
    /// Whether the owners and titles of jobs are shown.
    pub names: bool,
    /// The zone of clock times: a name of the time zone database, or an offset from UTC.
    pub zone: &'a str,
}

/// The subcommand that the words give. The only error is out of memory.
pub(crate) fn page_words<'a>(
    alloc: Global,
    found: &ArgMatches<'a>,
) -> Result<Subcommand<'a>, WordsError> {
    Ok(Subcommand::Page(Paging {
        files: Vec::from_slice(alloc, found.get_strs("file").unwrap_or(&[]))?,
        follow: found.get_str("follow"),
        at: found.get_str("at"),
        to: found.get_str("to"),
        metrics: found.get_str("metrics"),
        names: found.get_flag("names"),
        zone: found.get_str("zone").unwrap_or("UTC"),
    }))
}
