//! The writers of a recording's lines.
ghost use Rattle.std.specs.Prelude.{◌≡◌, ◌++◌, OnOk, codes};
ghost use Rattle.std.specs.Fmt.{decimal};
ghost use Rattle.recordings.specs.Lines.{about, line_about, accept_line, read_line, octets_line, zeros_line, came_line, sent_line, sum_words, turn_line, entry_line};

use crate::data::put_data;
use crate::entry::{Accepted, Entry, Sent};
use crate::redacted_read::RedactedRead;
use base_types::{JobId, Moment};
use itoa::Buffer;
use std::alloc::AllocError;
use wires::{Door, WireId};

/// The number of bytes from which on the bytes of a read are written after their line.
const MANY: usize = 256;

/// The beginning of the first line of a file that continues another file.
pub const GOES_ON: &[u8] = b"#goes on behind ";

/// The beginning of the line of a server that was started, in a file that continues another file.
pub const STARTED: &[u8] = b"#started ";

/// Appends the digits of a number.
fn put_number(output: &mut Vec<u8>, number: u64) -> Result<(), AllocError>
    ensures { OnOk result (output.new.items ≡ output.old.items ++ decimal number) }
{
    let mut buffer = Buffer::new();
    output.extend_from_slice(buffer.format(number).as_bytes())
}

/// Appends a word and a number. The word ends in a space.
fn put_about(output: &mut Vec<u8>, word: &[u8], number: u64) -> Result<(), AllocError>
    ensures { OnOk result (output.new.items ≡ output.old.items ++ about word.now number) }
{
    output.extend_from_slice(word)?;
    put_number(output, number)
}

/// Appends a line of a word and a number.
pub(crate) fn put_line(output: &mut Vec<u8>, word: &[u8], number: u64) -> Result<(), AllocError>
    ensures { OnOk result (output.new.items ≡ output.old.items ++ line_about word.now number) }
{
    put_about(output, word, number)?;
    output.extend_from_slice(b"\n")?;
    Ok(())
}

/// Appends the line of a connection that was accepted.
pub(crate) fn put_accepted(output: &mut Vec<u8>, door: Door, id: WireId) -> Result<(), AllocError>
    ensures { OnOk result (output.new.items ≡ output.old.items ++ accept_line door id) }
{
    output.extend_from_slice(b"accept ")?;
    output.extend_from_slice(door.word().as_bytes())?;
    put_line(output, b" ", u64::from(id))
}

/// Appends the line of bytes that were read, with the bytes in it.
fn put_read(output: &mut Vec<u8>, id: WireId, bytes: &[u8]) -> Result<(), AllocError>
    ensures { OnOk result (output.new.items ≡ output.old.items ++ read_line id bytes.now) }
{
    put_about(output, b"read ", u64::from(id))?;
    output.extend_from_slice(b" ")?;
    put_data(output, bytes)?;
    output.extend_from_slice(b"\n")?;
    Ok(())
}

/// Appends the line of bytes that were read, with the bytes after it as they are.
fn put_octets(output: &mut Vec<u8>, id: WireId, bytes: &[u8]) -> Result<(), AllocError>
    ensures { OnOk result (output.new.items ≡ output.old.items ++ octets_line id bytes.now) }
{
    put_about(output, b"octets ", u64::from(id))?;
    put_about(output, b" ", bytes.len() as u64)?;
    output.extend_from_slice(b"\n")?;
    output.extend_from_slice(bytes)?;
    output.extend_from_slice(b"\n")?;
    Ok(())
}

/// Appends the line of bytes that were read: few bytes are in the line, many after it.
pub(crate) fn put_came(output: &mut Vec<u8>, id: WireId, bytes: &[u8]) -> Result<(), AllocError>
    ensures { OnOk result (output.new.items ≡ output.old.items ++ came_line id bytes.now) }
{
    if bytes.len() < MANY {
        put_read(output, id, bytes)
    } else {
        put_octets(output, id, bytes)
    }
}

/// Appends the line of bytes that were read, after which `zeros` octets are left out.
fn put_zeros(output: &mut Vec<u8>, id: WireId, zeros: usize, bytes: &[u8]) -> Result<(), AllocError>
    ensures { OnOk result (output.new.items ≡ output.old.items ++ zeros_line id zeros bytes.now) }
{
    put_about(output, b"zeros ", u64::from(id))?;
    put_about(output, b" ", zeros as u64)?;
    output.extend_from_slice(b" ")?;
    put_data(output, bytes)?;
    output.extend_from_slice(b"\n")?;
    Ok(())
}

/// Appends the line of a read without documents.
pub(crate) fn put_redacted(
    output: &mut Vec<u8>,
    id: WireId,
    redacted: &RedactedRead,
) -> Result<(), AllocError> {
    if redacted.zeros() == 0 {
        put_came(output, id, redacted.bytes())
    } else {
        put_zeros(output, id, redacted.zeros(), redacted.bytes())
    }
}

/// Appends the line of bytes that were taken.
pub(crate) fn put_sent(output: &mut Vec<u8>, sent: Sent) -> Result<(), AllocError>
    ensures { OnOk result (output.new.items ≡ output.old.items ++ sent_line sent.id sent.count sent.sum) }
{
    put_about(output, b"sent ", u64::from(sent.id))?;
    put_about(output, b" ", sent.count as u64)?;
    put_sum(output, sent.sum)?;
    output.extend_from_slice(b"\n")?;
    Ok(())
}

/// Appends a space and a sum, or ` -` if there is no sum.
fn put_sum(output: &mut Vec<u8>, sum: Option<u32>) -> Result<(), AllocError>
    ensures { OnOk result (output.new.items ≡ output.old.items ++ sum_words sum) }
{
    match sum {
        Some(sum) => put_about(output, b" ", u64::from(sum)),
        None => output.extend_from_slice(b" -"),
    }
}

/// Appends the line of the end of a turn.
pub fn put_turn(output: &mut Vec<u8>, moment: Moment) -> Result<(), AllocError>
    ensures { OnOk result (output.new.items ≡ output.old.items ++ turn_line moment) }
{
    put_line(output, b"turn ", moment.millis())
}

/// Appends the line `refused`: memory was refused.
pub(crate) fn put_refused(output: &mut Vec<u8>) -> Result<(), AllocError>
    ensures { OnOk result (output.new.items ≡ output.old.items ++ codes "refused\n") }
{
    output.extend_from_slice(b"refused\n")?;
    Ok(())
}

/// Appends the line `restarted`: the server lost its connections, since it had been restarted.
pub(crate) fn put_restarted(output: &mut Vec<u8>) -> Result<(), AllocError>
    ensures { OnOk result (output.new.items ≡ output.old.items ++ codes "restarted\n") }
{
    output.extend_from_slice(b"restarted\n")?;
    Ok(())
}

/// Appends the line of an entry.
pub fn put_entry(output: &mut Vec<u8>, entry: &Entry) -> Result<(), AllocError>
    ensures { OnOk result (output.new.items ≡ output.old.items ++ entry_line entry.now) }
{
    match entry {
        Entry::Accepted(Accepted { door, id }) => put_accepted(output, *door, *id),
        Entry::Came(came) => put_read(output, came.id, &came.bytes),
        Entry::Octets(came) => put_octets(output, came.id, &came.bytes),
        Entry::Zeros(came) => put_zeros(output, came.id, came.zeros, &came.bytes),
        Entry::Ended(id) => put_line(output, b"end ", u64::from(*id)),
        Entry::Failed(id) => put_line(output, b"fail ", u64::from(*id)),
        Entry::Sent(sent) => put_sent(output, *sent),
        Entry::Shut(id) => put_line(output, b"shut ", u64::from(*id)),
        Entry::Broken(id) => put_line(output, b"break ", u64::from(*id)),
        Entry::Closed(id) => put_line(output, b"close ", u64::from(*id)),
        Entry::Refused => put_refused(output),
        Entry::Restarted => put_restarted(output),
        Entry::Turn(moment) => put_turn(output, *moment),
    }
}

/// Appends the settings, the point after them, and the beginning of the line after it: the start of the server in ms
/// since the beginning of 1970, and its version.
fn put_settings(
    output: &mut Vec<u8>,
    settings: &[u8],
    began: u64,
    version: &str,
) -> Result<(), AllocError> {
    output.extend_from_slice(settings)?;
    if settings.last() != Some(&b'\n') {
        output.extend_from_slice(b"\n")?;
    }
    output.extend_from_slice(b".\n")?;
    put_about(output, b"recorded ", began)?;
    output.extend_from_slice(b" ")?;
    output.extend_from_slice(version.as_bytes())
}

/// Appends the lines before the turns: the settings, the point after them, and a line with the start of the
/// server in ms since the beginning of 1970, its version, and whether documents are left out.
pub fn put_start(
    output: &mut Vec<u8>,
    settings: &[u8],
    began: u64,
    version: &str,
    heads: bool,
) -> Result<(), AllocError> {
    put_settings(output, settings, began, version)?;
    output.extend_from_slice(if heads { b" heads\n" } else { b"\n" })
}

/// Appends the lines before the turns, as [`put_start`] does, of a server whose first job gets the id `first`.
pub fn put_base(
    output: &mut Vec<u8>,
    settings: &[u8],
    began: u64,
    version: &str,
    first: JobId,
) -> Result<(), AllocError> {
    put_settings(output, settings, began, version)?;
    put_line(output, b" first ", u64::from(first.number()))
}

/// Appends the line before the turns of a file that continues the file `name`.
pub fn put_goes_on(output: &mut Vec<u8>, name: &[u8]) -> Result<(), AllocError> {
    output.extend_from_slice(GOES_ON)?;
    output.extend_from_slice(name)?;
    output.extend_from_slice(b"\n")
}

/// Appends the line after that of [`put_goes_on`] where a server was started: the start in ms since the beginning
/// of 1970, and its version.
pub fn put_started(output: &mut Vec<u8>, began: u64, version: &str) -> Result<(), AllocError> {
    output.extend_from_slice(STARTED)?;
    put_number(output, began)?;
    output.extend_from_slice(b" ")?;
    output.extend_from_slice(version.as_bytes())?;
    output.extend_from_slice(b"\n")
}
