//! The words of a line.
ghost use Rattle.std.specs.Prelude.{◌≡◌, ◌<◌, IfOk, filter, length, map, nat_lt};
ghost use Rattle.lpd.specs.Command.{first_word, later_words, operands_of};

use base_types::Text;
use std::alloc::{AllocError, Global};

/// The first word, empty if there is none.
pub(crate) fn first_word<'a>(words: &[&'a [u8]]) -> &'a [u8]
    ensures { result.now ≡ first_word (map (λ word. word.now) words.now) }
{
    match words.first() {
        Some(word) => *word,
        None => &[],
    }
}

/// The words after the first.
pub(crate) fn later_words<'w, 'a>(words: &'w [&'a [u8]]) -> &'w [&'a [u8]]
    ensures { map (λ word. word.now) result.now ≡ later_words (map (λ word. word.now) words.now) }
{
    &words[words.len().min(1)..]
}

/// The words after the first that aren't empty.
pub(crate) fn operands(alloc: Global, words: &[&[u8]]) -> Result<Vec<Text>, AllocError>
    ensures { IfOk result (λ operands. operands.items ≡ operands_of (map (λ word. word.now) words.now)) }
{
    filled(alloc, later_words(words))
}

/// The words that aren't empty.
fn filled(alloc: Global, words: &[&[u8]]) -> Result<Vec<Text>, AllocError>
    ensures { IfOk result (λ texts. texts.items ≡ filter (λ operand. nat_lt 0 (length operand)) (map (λ word. word.now) words.now)) }
{
    let mut texts = Vec::new(alloc);
    for word in words {
        if !word.is_empty() {
            texts.push(Text::copy_of(alloc, *word)?)?;
        }
    }
    Ok(texts)
}
