//! Bytes as a rows file writes them.

use crate::data_fault::DataFault;
use std::alloc::Global;
use text::number_up_to;

/// How often a byte can be repeated.
const MOST_REPEATED: u64 = 65_535;

/// Bytes that a rows file names.
#[derive(Drop)]
pub(crate) struct NamedBytes {
    pub(crate) name: String,
    pub(crate) bytes: Vec<u8>,
}

/// Reads bytes. The error is that of their first escape or braces that can't be read.
pub(crate) fn read_bytes(
    alloc: Global,
    texts: &[NamedBytes],
    written: &str,
) -> Result<Vec<u8>, DataFault> {
    let mut bytes = Vec::new(alloc);
    let mut rest = written.as_bytes();
    for _ in 0..written.len() {
        let count = put_next(&mut bytes, texts, rest)?;
        rest = rest.get(count..).unwrap_or(&[]);
    }
    Ok(bytes)
}

/// Appends what comes first in `written`. Returns its length there.
fn put_next(bytes: &mut Vec<u8>, texts: &[NamedBytes], written: &[u8]) -> Result<usize, DataFault> {
    match written {
        [] => Ok(0),
        [b'\\', escape @ ..] => put_escape(bytes, escape),
        [b'{', braced @ ..] => put_braced(bytes, texts, braced),
        [byte, ..] => {
            bytes.push(*byte)?;
            Ok(1)
        }
    }
}

/// Appends the byte of an escape, which begins after its backslash. Returns its length with the backslash.
fn put_escape(bytes: &mut Vec<u8>, escape: &[u8]) -> Result<usize, DataFault> {
    match escape {
        [b'x', high, low, ..] => {
            bytes.push(hexadecimal(*high, *low).ok_or(DataFault::Escape)?)?;
            Ok(4)
        }
        [letter, ..] => {
            bytes.push(escaped(*letter).ok_or(DataFault::Escape)?)?;
            Ok(2)
        }
        [] => Err(DataFault::Escape),
    }
}

/// The byte that a letter after a backslash stands for.
fn escaped(letter: u8) -> Option<u8> {
    match letter {
        b'n' => Some(b'\n'),
        b'r' => Some(b'\r'),
        b't' => Some(b'\t'),
        b'0' => Some(b'\0'),
        b'\\' | b'{' => Some(letter),
        _ => None,
    }
}

/// The byte of two hexadecimal digits.
fn hexadecimal(high: u8, low: u8) -> Option<u8> {
    Some((digit(high)? << 4) | digit(low)?)
}

/// The value of a hexadecimal digit.
fn digit(byte: u8) -> Option<u8> {
    match byte {
        b'0'..=b'9' => Some(byte - b'0'),
        b'a'..=b'f' => Some(byte - b'a' + 10),
        b'A'..=b'F' => Some(byte - b'A' + 10),
        _ => None,
    }
}

/// Appends what braces stand for, of which `braced` begins after the first. Returns their length with both
/// braces.
fn put_braced(
    bytes: &mut Vec<u8>,
    texts: &[NamedBytes],
    braced: &[u8],
) -> Result<usize, DataFault> {
    let Some(length) = braced.iter().position(|byte| *byte == b'}') else {
        return Err(DataFault::Brace);
    };
    match braced.get(..length).unwrap_or(&[]) {
        [byte, b'*', digits @ ..] => put_repeated(bytes, *byte, digits)?,
        name => put_text(bytes, texts, name)?,
    }
    Ok(length.saturating_add(2))
}

/// Appends a byte as often as the digits say.
fn put_repeated(bytes: &mut Vec<u8>, byte: u8, digits: &[u8]) -> Result<(), DataFault> {
    for _ in 0..number_up_to(digits, MOST_REPEATED).ok_or(DataFault::Number)? {
        bytes.push(byte)?;
    }
    Ok(())
}

/// Appends the bytes of a name.
fn put_text(bytes: &mut Vec<u8>, texts: &[NamedBytes], name: &[u8]) -> Result<(), DataFault> {
    for text in texts {
        if text.name.as_bytes() == name {
            bytes.extend_from_slice(&text.bytes)?;
            return Ok(());
        }
    }
    Err(DataFault::TextName)
}
