//! The lines that the server sends to a device.
ghost use Rattle.std.specs.Prelude.{◌≡◌, ◌+◌, ◌<◌, ◌≤◌, ◌++◌, IfOk, OnOk, OnErr, vec_len, length};
ghost use Rattle.std.specs.Vec.{vec_capacity};
ghost use Rattle.device_link.specs.Orders.{sides_word, letter_if, finishings_word, job_line, cancel_line};

use base_types::{Finishings, JobId, Needs, Sides};
use itoa::Buffer;
use std::alloc::{AllocError, Global};

/// Appends the line that announces a job of this many octets to a device. The job's documents follow it on
/// the connection. The only error is out of memory, and nothing is appended then.
pub fn write_job(
    alloc: Global,
    job: JobId,
    octets: usize,
    needs: &Needs,
    output: &mut Vec<u8>,
) -> Result<(), AllocError>
    ensures ok { OnOk result (output.new.items ≡ output.old.items ++ job_line job octets needs.now) }
    ensures err { OnErr result (output.new.items ≡ output.old.items) }
{
    let line = job_text(alloc, job, octets, needs)?;
    output.extend_from_slice(&line)
}

/// The line that announces a job. The only error is out of memory.
fn job_text(alloc: Global, job: JobId, octets: usize, needs: &Needs) -> Result<Vec<u8>, AllocError>
    ensures { IfOk result (λ line. line.items ≡ job_line job octets needs.now) }
{
    let number = job.number();
    let copies = needs.copies;
    let sides = sides_word(needs.sides);
    let head = format!(in alloc; "JOB {number} {octets} {copies} {sides} ")?;
    let mut line = Vec::from_slice(alloc, head.as_bytes())?;
    line.extend_from_slice(needs.media.as_bytes())?;
    let finishings = finishings_word(alloc, needs.finishings)?;
    line.extend_from_slice(&finishings)?;
    line.extend_from_slice(b"\n")?;
    Ok(line)
}

/// The word of a line for the sides.
fn sides_word(sides: Sides) -> &'static str
    ensures { result.now ≡ sides_word sides }
{
    match sides {
        Sides::One => "1",
        Sides::LongEdge => "L",
        Sides::ShortEdge => "S",
    }
}

/// The word of a line for the finishings of a job, after a space; empty for a job without finishings.
fn finishings_word(alloc: Global, finishings: Finishings) -> Result<Vec<u8>, AllocError>
    ensures { IfOk result (λ word. word.items ≡ finishings_word finishings) }
{
    let mut word = Vec::new(alloc);
    if finishings.staple || finishings.punch || finishings.bind {
        word.extend_from_slice(b" ")?;
        word.extend_from_slice(letter_if(finishings.staple, "S").as_bytes())?;
        word.extend_from_slice(letter_if(finishings.punch, "P").as_bytes())?;
        word.extend_from_slice(letter_if(finishings.bind, "B").as_bytes())?;
    }
    Ok(word)
}

/// The letter of a finishing if the job has that finishing, else an empty text.
fn letter_if(wanted: bool, letter: &str) -> &str
    ensures { result.now ≡ letter_if wanted letter.now }
{
    if wanted { letter } else { "" }
}

/// Appends the line that cancels a job at its device. The only error is out of memory, and nothing is
/// appended then. Memory is taken only if the room is less than the line needs. The room never shrinks.
pub fn write_cancel(job: JobId, output: &mut Vec<u8>) -> Result<(), AllocError>
    ensures ok { OnOk result (output.new.items ≡ output.old.items ++ cancel_line job) }
    ensures err { OnErr result (output.new.items ≡ output.old.items) }
    ensures full { OnErr result (vec_capacity output.old < vec_len output.old + length (cancel_line job)) }
    ensures capacity { vec_capacity output.old ≤ vec_capacity output.new }
{
    let mut digits = Buffer::new();
    let number = digits.format(job.number()).as_bytes();
    let word = b"CANCEL ";
    let end = b"\n";
    output.reserve(word.len() + number.len() + end.len())?;
    output.extend_from_slice(word)?;
    output.extend_from_slice(number)?;
    output.extend_from_slice(end)?;
    Ok(())
}
