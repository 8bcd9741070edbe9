//! The line after the settings of a recording.
use base_types::JobId;
use text::{cut_at, decimal, number_up_to};

/// The latest start that is read.
const LATEST: u64 = 9_999_999_999_999_999;

/// The words of the line after the settings.
#[derive(Clone, Copy)]
pub struct Start<'a> {
    /// The start of the server, in ms since the beginning of 1970.
    pub began: u64,
    /// The version of the server.
    pub version: &'a [u8],
    /// Whether documents are left out.
    pub heads: bool,
    /// The id of the first job.
    pub first: JobId,
}

/// The words that may be after the version: whether documents are left out, and the id of the first job.
fn read_options(words: &[u8]) -> Option<(bool, JobId)> {
    if let Some(digits) = words.strip_prefix(b"first ") {
        return Some((false, JobId::new(decimal(digits)?)?));
    }
    let heads = words == b"heads".as_slice();
    if heads || words.is_empty() {
        return Some((heads, JobId::new(JobId::FIRST)?));
    }
    None
}

/// The words of the line after the settings; `None` if it isn't such a line.
pub fn read_start(line: &[u8]) -> Option<Start<'_>> {
    let operands = line.strip_prefix(b"recorded ")?;
    let (digits, more) = cut_at(operands, b' ')?;
    let (version, words) = cut_at(more, b' ').unwrap_or((more, b""));
    let began = number_up_to(digits, LATEST)?;
    let (heads, first) = read_options(words)?;
    Some(Start {
        began,
        version,
        heads,
        first,
    })
}
