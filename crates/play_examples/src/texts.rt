//! The texts of plans that a replay writes, read by the checker.

use plan_audit::run_check;
use replay::run_replay;
use std::alloc::{AllocError, Global};

/// Whether the checker answers `yes` to a text.
fn is_proved(alloc: Global, text: &[u8]) -> bool {
    let mut output = Vec::new(alloc);
    let mut input = text;
    run_check(alloc, &mut input, &mut output, false)
        .status
        .code()
        == 0
        && output.as_slice() == b"yes\n".as_slice()
}

/// How many texts of plans an output has, if the checker answers `yes` to each; else nothing.
fn proved_texts(alloc: Global, output: &[u8]) -> Result<Option<usize>, AllocError> {
    let mut text = Vec::new(alloc);
    let mut count = 0usize;
    for line in output.split(|byte| *byte == b'\n') {
        if line == b"plan".as_slice() {
            text.clear();
        }
        text.extend_from_slice(line)?;
        text.push(b'\n')?;
        if line == b"end".as_slice() {
            if !is_proved(alloc, &text) {
                return Ok(None);
            }
            count = count.saturating_add(1);
        }
    }
    Ok(Some(count))
}

/// How many plans in an output have a class.
fn plans_in(output: &[u8]) -> usize {
    output
        .split(|byte| *byte == b'\n')
        .filter(|line| line.starts_with(b"plan"))
        .count()
}

/// Whether a replay of a trace with the texts of its plans writes one for each plan that it reports
/// without them, and the checker answers `yes` to each.
pub fn each_is_proved(alloc: Global, trace: &[u8], replayed: &[u8]) -> Result<bool, AllocError> {
    let mut output = Vec::new(alloc);
    let mut input = trace;
    run_replay(alloc, &mut input, &mut output, true);
    Ok(proved_texts(alloc, &output)? == Some(plans_in(replayed)))
}
