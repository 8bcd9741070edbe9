//! The written form of bytes in a line: a line feed is `\n`, a backslash `\\`, any other byte itself.
ghost use Rattle.std.specs.Prelude.{◌≡◌, ◌<◌, ◌++◌, ◌==◌, ◌||◌, true, OnOk, IfSome, IfNone, length};
ghost use Rattle.recordings.specs.Data.{escape, escaped};

use memchr::memchr2;
use std::alloc::{AllocError, Global};

/// Bytes that are written as themselves, the byte after them that isn't, and the bytes after that.
#[derive(Clone, Copy)]
struct Cut<'a> {
    plain: &'a [u8],
    byte: u8,
    more: &'a [u8],
}

/// Cuts bytes at the first that isn't written as itself.
fn cut_special(bytes: &[u8]) -> Option<Cut<'_>>
    ensures cut { IfSome result (λ cut. escaped bytes.now ≡ cut.plain.now ++ (escape cut.byte ++ escaped cut.more.now)) }
    ensures byte { IfSome result (λ cut. (cut.byte == 10 || cut.byte == 92) ≡ true) }
    ensures shorter { IfSome result (λ cut. length cut.more.now < length bytes.now) }
    ensures none { IfNone result (escaped bytes.now ≡ bytes.now) }
{
    let Some(place) = memchr2(b'\n', b'\\', bytes) else {
        return None;
    };
    let (plain, later) = bytes.split_at(place);
    let (byte, more) = later.split_first()?;
    Some(Cut {
        plain,
        byte: *byte,
        more,
    })
}

/// The written form of a line feed or a backslash.
fn escape(byte: u8) -> &'static [u8; 2]
    requires { (byte == 10 || byte == 92) ≡ true }
    ensures { result.now ≡ escape byte }
{
    if byte == b'\n' { b"\\n" } else { b"\\\\" }
}

/// Appends the written form of bytes. The only error is out of memory.
pub(crate) fn put_data(output: &mut Vec<u8>, bytes: &[u8]) -> Result<(), AllocError>
    ensures { OnOk result (output.new.items ≡ output.old.items ++ escaped bytes.now) }
{
    let mut rest = bytes;
    while let Some(cut) = cut_special(rest) {
        output.extend_from_slice(cut.plain)?;
        output.extend_from_slice(escape(cut.byte))?;
        rest = cut.more;
    }
    output.extend_from_slice(rest)?;
    Ok(())
}

/// The byte with this letter after a backslash.
fn unescape(byte: u8) -> Option<u8> {
    match byte {
        b'n' => Some(b'\n'),
        b'\\' => Some(b'\\'),
        _ => None,
    }
}

/// Reads bytes from their written form; `None` if the text isn't such a form. The only error is out of
/// memory.
pub(crate) fn read_data(alloc: Global, text: &[u8]) -> Result<Option<Vec<u8>>, AllocError> {
    let mut bytes = Vec::new(alloc);
    let mut escapes = false;
    for byte in text {
        let meant = if escapes {
            unescape(*byte)
        } else {
            Some(*byte)
        };
        let Some(meant) = meant else {
            return Ok(None);
        };
        escapes = !escapes && *byte == b'\\';
        if !escapes {
            bytes.push(meant)?;
        }
    }
    Ok(if escapes { None } else { Some(bytes) })
}
