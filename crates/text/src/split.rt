//! Texts that are cut at each byte of one value.
ghost use Rattle.std.specs.Prelude.{◌≡◌, IfOk, IfSome, None, map};
ghost use Rattle.text.specs.Parts.{parts_at, words_of, Lacks, IsCut};

use crate::bytes::find_byte;
use std::alloc::{AllocError, Global};

/// The text before and after the first separator; `None` if there is none.
pub fn cut_at(text: &[u8], separator: u8) -> Option<(&[u8], &[u8])>
    ensures some { IfSome result (λ cut. IsCut separator text.now cut.0.now cut.1.now) }
    ensures none { result ≡ None → Lacks separator text.now }
{
    match find_byte(text, separator) {
        Some(place) => Some((&text[..place], &text[place + 1..])),
        None => None,
    }
}

/// The parts of a text between the separators: one more than there are separators. The only error is out of
/// memory.
pub fn parts<'a>(alloc: Global, text: &'a [u8], separator: u8) -> Result<Vec<&'a [u8]>, AllocError>
    ensures { IfOk result (λ parts. map (λ part. part.now) parts.items ≡ parts_at separator text.now) }
{
    text.split(|byte| *byte == separator).collect(alloc)
}

/// The words of a text between single spaces. Between two adjacent spaces is an empty word. The only error is
/// out of memory.
pub fn words<'a>(alloc: Global, text: &'a [u8]) -> Result<Vec<&'a [u8]>, AllocError>
    ensures { IfOk result (λ words. map (λ word. word.now) words.items ≡ words_of text.now) }
{
    parts(alloc, text, b' ')
}
