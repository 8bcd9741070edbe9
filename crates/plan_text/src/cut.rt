//! The words of a line.
ghost use Rattle.std.specs.Prelude.{map};
ghost use Rattle.plan_text.specs.Reading.{Gives};
ghost use Rattle.plan_text.specs.Line.{only_word, first_word};

use crate::fault::{ReadError, TextFault};

/// The word, if there is exactly one.
#[tactic(auto, using(crate::proofs::Words::one_word, crate::proofs::Words::not_one_word))]
pub(crate) fn only_word<'a>(words: &[&'a [u8]]) -> Result<&'a [u8], ReadError>
    ensures { Gives (λ word. word.now) result (only_word (map (λ word. word.now) words.now)) }
{
    if words.len() != 1 {
        return Err(ReadError::Fault(TextFault::BadLine));
    }
    Ok(words[0])
}

/// The first word, and the words after it.
#[tactic(auto, using(crate::proofs::Words::some_word, crate::proofs::Words::no_word))]
pub(crate) fn first_word<'a, 'b>(
    words: &'b [&'a [u8]],
) -> Result<(&'a [u8], &'b [&'a [u8]]), ReadError>
    ensures { Gives (λ found. (found.0.now, map (λ word. word.now) found.1.now)) result (first_word (map (λ word. word.now) words.now)) }
{
    if words.is_empty() {
        return Err(ReadError::Fault(TextFault::BadLine));
    }
    Ok((words[0], &words[1..]))
}
