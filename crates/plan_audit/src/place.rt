//! The line of the fault of a text that is no plan.
ghost use Rattle.std.specs.Prelude.{◌≡◌, Err, IfOk, true};
ghost use Rattle.plan_text.specs.Whole.{plan_at};
ghost use Rattle.plan_audit.specs.Place.{is_of_line, has_faulty_line, line_after, Decides, IsFaultyLine, IsFaultLine};

use plan_text::{ReadError, TextFault, read_plan_text};
use std::alloc::{AllocError, Global};

/// The line of this fault of a text, counted from 1: the faulty line; or, for a text that ends too early, the
/// line that is missing or has no end. The only error is out of memory.
#[tactic(auto, unfolding(crate::specs::Place::has_faulty_line))]
pub fn fault_line(alloc: Global, text: &[u8], fault: TextFault) -> Result<usize, AllocError>
    requires { plan_at text.now ≡ Err fault }
    ensures { IfOk result (λ line. IsFaultLine text.now fault line) }
{
    match fault {
        TextFault::NoEnd => Ok(line_after(text)),
        TextFault::BadLine => deciding_line(alloc, text),
        TextFault::OutOfRange => deciding_line(alloc, text),
    }
}

/// The faulty line of a text, counted from 1. The only error is out of memory.
fn deciding_line(alloc: Global, text: &[u8]) -> Result<usize, AllocError>
    requires faulty { has_faulty_line text.now ≡ true }
    ensures { IfOk result (IsFaultyLine text.now) }
{
    let count = deciding_byte(alloc, text)?;
    Ok(line_after(&text[..count]))
}

/// The line of the byte after `prefix`, counted from 1.
fn line_after(prefix: &[u8]) -> usize
    ensures { result ≡ line_after prefix.now }
{
    1 + prefix.iter().filter(|byte| **byte == b'\n').count()
}

/// Returns whether a fault is a fault of a line.
fn is_of_line(fault: TextFault) -> bool
    ensures { result ≡ is_of_line fault }
{
    match fault {
        TextFault::BadLine | TextFault::OutOfRange => true,
        TextFault::NoEnd => false,
    }
}

/// Returns whether a text has a faulty line. The only error is out of memory.
#[tactic(auto, unfolding(crate::specs::Place::has_faulty_line))]
fn has_faulty_line(alloc: Global, text: &[u8]) -> Result<bool, AllocError>
    ensures { IfOk result (λ is. is ≡ has_faulty_line text.now) }
{
    match read_plan_text(alloc, text) {
        Ok(_) => Ok(false),
        Err(ReadError::Fault(fault)) => Ok(is_of_line(fault)),
        Err(ReadError::OutOfMemory) => Err(AllocError),
    }
}

/// The place of the byte that decides: the line feed of the faulty line, or the first byte after the end of
/// the plan. The search halves its range each time, and reads the text as often as the length of the text has
/// binary digits. The only error is out of memory.
#[tactic(auto, using(crate::proofs::Prefixes::begins))]
fn deciding_byte(alloc: Global, text: &[u8]) -> Result<usize, AllocError>
    requires faulty { has_faulty_line text.now ≡ true }
    ensures { IfOk result (Decides text.now) }
{
    let mut sound = 0;
    let mut faulty = text.len();
    while faulty - sound > 1 {
        let middle = sound + (faulty - sound) / 2;
        if has_faulty_line(alloc, &text[..middle])? {
            faulty = middle;
        } else {
            sound = middle;
        }
    }
    Ok(sound)
}
