//! The first lines of a file.
use crate::fault::Why;
use crate::trouble::{ReadTrouble, bad_line};
use base_types::{JobId, Limits};
use recordings::{GOES_ON, LineReader, STARTED, read_start};
use std::alloc::Global;
use std::fs::File;
use text::cut_at;

/// The first lines of a base.
#[derive(Drop)]
pub(crate) struct BaseHead {
    /// The text of the settings, with a line feed at its end.
    pub(crate) settings: Vec<u8>,
    /// The id of the first job.
    pub(crate) first: JobId,
    /// The start of the server that wrote the base, in ms since the beginning of 1970.
    pub(crate) began: u64,
    pub(crate) version: Vec<u8>,
    /// The number of bytes of these lines.
    pub(crate) length: u64,
}

/// The first lines of a file that goes on after another.
#[derive(Drop)]
pub(crate) struct NextHead {
    /// The name of the file before.
    pub(crate) continues: Vec<u8>,
    pub(crate) version: Vec<u8>,
    /// The number of bytes of these lines.
    pub(crate) length: u64,
}

/// The number of bytes of a line with its line feed.
pub(crate) fn length_of(line: &[u8]) -> u64 {
    (line.len() as u64).saturating_add(1)
}

/// Reads the settings of a base, up to the line `.`.
fn read_settings(alloc: Global, lines: &mut LineReader<'_, File>) -> Result<Vec<u8>, ReadTrouble> {
    let mut settings = Vec::new(alloc);
    let mut line = Vec::new(alloc);
    for _ in 0..u64::MAX {
        if settings.len() > Limits::INPUT_BYTES || !lines.read(&mut line)? {
            break;
        }
        if line.as_slice() == b".".as_slice() {
            return Ok(settings);
        }
        settings.extend_from_slice(&line)?;
        settings.extend_from_slice(b"\n")?;
    }
    Err(ReadTrouble::File(None, Why::NoSettings))
}

/// Reads the first lines of a base.
pub(crate) fn read_base(
    alloc: Global,
    lines: &mut LineReader<'_, File>,
) -> Result<BaseHead, ReadTrouble> {
    let settings = read_settings(alloc, lines)?;
    let mut line = Vec::new(alloc);
    let there = lines.read(&mut line)?;
    match read_start(&line) {
        Some(start) if there && !start.heads => Ok(BaseHead {
            length: length_of(b".")
                .saturating_add(settings.len() as u64)
                .saturating_add(length_of(&line)),
            settings,
            first: start.first,
            began: start.began,
            version: Vec::from_slice(alloc, start.version)?,
        }),
        _ => Err(bad_line(lines.passed())),
    }
}

/// The version in the second line of a file that goes on.
fn version_of(line: &[u8]) -> Option<&[u8]> {
    let operands = line.strip_prefix(STARTED)?;
    let (_, version) = cut_at(operands, b' ')?;
    Some(version)
}

/// Reads the first lines of a file that goes on after another.
pub(crate) fn read_next(
    alloc: Global,
    lines: &mut LineReader<'_, File>,
) -> Result<NextHead, ReadTrouble> {
    let mut first = Vec::new(alloc);
    let mut second = Vec::new(alloc);
    let there = lines.read(&mut first)? && lines.read(&mut second)?;
    let (Some(continues), Some(version)) = (first.strip_prefix(GOES_ON), version_of(&second)) else {
        return Err(bad_line(lines.passed()));
    };
    if !there {
        return Err(bad_line(lines.passed()));
    }
    Ok(NextHead {
        length: length_of(&first).saturating_add(length_of(&second)),
        continues: Vec::from_slice(alloc, continues)?,
        version: Vec::from_slice(alloc, version)?,
    })
}

/// Returns whether a file is a base: its first line isn't that of a file that goes on.
pub(crate) fn is_base(alloc: Global, file: &mut File) -> Result<bool, ReadTrouble> {
    let mut lines = LineReader::new(alloc, file)?;
    let mut line = Vec::new(alloc);
    let _there = lines.read(&mut line)?;
    Ok(!line.starts_with(GOES_ON))
}
