//! Bytes that lie in parts.
ghost use Rattle.std.specs.Prelude.{◌≤◌, IfOk, length};
ghost use Rattle.std.specs.Io.Slices.{io_slice_bytes, io_slices_bytes};

use std::alloc::AllocError;
use std::cmp::min;
use std::io::IoSlice;

/// Appends a prefix of bytes in parts, of at most `count` bytes. Returns its length.
pub(crate) fn put_prefix(
    output: &mut Vec<u8>,
    parts: &[IoSlice<'_>],
    count: usize,
) -> Result<usize, AllocError>
    ensures { IfOk result (λ n. n ≤ length (io_slices_bytes parts.now)) }
{
    match parts {
        [] => Ok(0),
        [part, others @ ..] => {
            let first = put_part(output, part, count)?;
            let more = put_prefix(output, others, count.saturating_sub(first))?;
            Ok(first.saturating_add(more))
        }
    }
}

/// Appends a prefix of a part, of at most `count` bytes. Returns its length.
fn put_part(output: &mut Vec<u8>, part: &IoSlice<'_>, count: usize) -> Result<usize, AllocError>
    ensures { IfOk result (λ n. n ≤ length (io_slice_bytes part.now)) }
{
    let bytes = part.as_slice();
    let first = min(count, bytes.len());
    output.extend_from_slice(&bytes[..first])?;
    Ok(first)
}
