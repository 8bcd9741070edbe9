//! Hints about values that are nearly right.
use std::fmt;

/// Common names of media, and the names by which they are written (PWG 5101.1).
const MEDIA: [(&str, &str); 6] = [
    ("A3", "iso_a3_297x420mm"),
    ("A4", "iso_a4_210x297mm"),
    ("A5", "iso_a5_148x210mm"),
    ("Letter", "na_letter_8.5x11in"),
    ("Legal", "na_legal_8.5x14in"),
    ("Tabloid", "na_ledger_11x17in"),
];

/// What is probably wrong about a value that a key may not have, for the end of a sentence.
#[derive(Clone, Copy)]
pub(crate) enum Hint {
    /// The value is a number in quotation marks.
    Quoted,
    /// The value has the common name of a medium.
    Medium(&'static str, &'static str),
    None,
}

/// The text between the first two quotation marks of a value.
fn between_quotes(value: &str) -> Option<&str> {
    let (_before, rest) = value.split_once(['"', '\''])?;
    let (text, _after) = rest.split_once(['"', '\''])?;
    Some(text)
}

impl Hint {
    /// The hint about a value as a file writes it.
    pub(crate) fn about(value: &str) -> Hint {
        let Some(text) = between_quotes(value) else {
            return Hint::None;
        };
        if !text.is_empty() && text.bytes().all(|byte| byte.is_ascii_digit()) {
            return Hint::Quoted;
        }
        for (content, written) in MEDIA {
            if text.eq_ignore_ascii_case(content) {
                return Hint::Medium(content, written);
            }
        }
        Hint::None
    }
}

impl fmt::Display for Hint {
    fn fmt<W: fmt::Write>(&self, f: &mut fmt::Formatter<W>) -> fmt::Result {
        match self {
            Hint::Quoted => f.write_str(", without quotation marks"),
            Hint::Medium(content, written) => write!(f, "; {content} is {written:?}"),
            Hint::None => Ok(()),
        }
    }
}
