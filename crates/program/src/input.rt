//! The input that a program reads.
ghost use Rattle.std.specs.Prelude.{MatchResult};
ghost use Rattle.program.specs.Input.{IsWhole, StopsAt};

use std::alloc::Global;
use std::io::Read;

/// Why an input isn't read as a whole.
#[derive(Clone, Copy, PartialEq, Eq)]
pub enum InputFault {
    /// The input has too many bytes.
    Size,
    /// The stream failed, or took too many reads.
    Stream,
    OutOfMemory,
}

/// Reads an input up to its end. The error is that it has too many bytes, takes too many reads, or that the
/// stream or memory failed.
pub fn read_whole<R: Read>(
    alloc: Global,
    reader: &mut R,
    most_bytes: usize,
    most_reads: u32,
) -> Result<Vec<u8>, InputFault>
    ensures { MatchResult result
        (λ bytes. IsWhole most_bytes (R.remaining reader.old) (R.remaining reader.new) bytes.items)
        (λ fault. StopsAt most_bytes (R.remaining reader.old) (R.remaining reader.new) fault) }
{
    let mut bytes = Vec::new(alloc);
    let mut buffer = [0u8; 4096];
    for _ in 0..most_reads {
        let count = match reader.read(&mut buffer) {
            Ok(count) => count,
            Err(_) => return Err(InputFault::Stream),
        };
        if count == 0 {
            return Ok(bytes);
        }
        if count > most_bytes - bytes.len() {
            return Err(InputFault::Size);
        }
        if bytes.extend_from_slice(&buffer[..count]).is_err() {
            return Err(InputFault::OutOfMemory);
        }
    }
    Err(InputFault::Stream)
}
