//! The lines of calls.
ghost use Rattle.std.specs.Prelude.{◌≡◌, ◌++◌, None, OnOk, length};
ghost use Rattle.wires.specs.Poll.{Accepts, Reads, bytes_read, IsCount};
ghost use Rattle.recordings.specs.Noting.{note_of, written_note, end_of};

use crate::entry::Sent;
use crate::write::{put_accepted, put_came, put_line, put_sent, put_turn};
use base_types::Moment;
use std::alloc::AllocError;
use wires::{Door, Progress, WireId};

/// Appends the note of an accept.
pub(crate) fn put_accept(
    output: &mut Vec<u8>,
    door: Door,
    answer: Progress<WireId>,
) -> Result<(), AllocError>
    ensures { OnOk result (output.new.items ≡ output.old.items ++ note_of (Accepts door answer) None) }
{
    match answer {
        Progress::Done(id) => put_accepted(output, door, id),
        Progress::Waiting => Ok(()),
        Progress::End => Ok(()),
        Progress::Fault => Ok(()),
    }
}

/// Appends the note of a read into the beginning of a buffer.
pub(crate) fn put_read(
    output: &mut Vec<u8>,
    id: WireId,
    answer: Progress<usize>,
    buffer: &[u8],
) -> Result<(), AllocError>
    requires { IsCount answer (length buffer.now) }
    ensures { OnOk result (output.new.items ≡ output.old.items ++ note_of (Reads id (bytes_read answer buffer.now)) None) }
{
    match answer {
        Progress::Done(count) => put_came(output, id, &buffer[..count]),
        Progress::Waiting => Ok(()),
        Progress::End => put_line(output, b"end ", u64::from(id)),
        Progress::Fault => put_line(output, b"fail ", u64::from(id)),
    }
}

/// Appends the note of a write, with the sum of the bytes that were taken, if it is noted.
pub(crate) fn put_write(
    output: &mut Vec<u8>,
    id: WireId,
    answer: Progress<usize>,
    sum: Option<u32>,
) -> Result<(), AllocError>
    ensures { OnOk result (output.new.items ≡ output.old.items ++ written_note id answer sum) }
{
    match answer {
        Progress::Done(count) => put_sent(output, Sent { id, count, sum }),
        Progress::Waiting => Ok(()),
        Progress::End => put_line(output, b"shut ", u64::from(id)),
        Progress::Fault => put_line(output, b"break ", u64::from(id)),
    }
}

/// Appends the lines of the end of a turn. `refused` indicates whether memory was refused to the server in the
/// turn.
pub(crate) fn put_end(output: &mut Vec<u8>, moment: Moment, refused: bool) -> Result<(), AllocError>
    ensures { OnOk result (output.new.items ≡ output.old.items ++ end_of moment refused) }
{
    if refused {
        output.extend_from_slice(b"refused\n")?;
        put_turn(output, moment)?;
        return Ok(());
    }
    put_turn(output, moment)
}
