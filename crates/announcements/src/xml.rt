//! Text and elements as XML writes them.
ghost use Rattle.std.specs.Prelude.{◌≡◌, ◌++◌, OnOk};
ghost use Rattle.announcements.specs.Xml.{escaped_byte, escaped, element, opening, closing};

use std::alloc::AllocError;

/// Appends the line of an element that holds a text. The only error is out of memory.
pub(crate) fn put_element(output: &mut Vec<u8>, name: &str, text: &[u8]) -> Result<(), AllocError>
    ensures { OnOk result (output.new.items ≡ output.old.items ++ element name.now text.now) }
{
    put_opening(output, name)?;
    put_escaped(output, text)?;
    put_closing(output, name)
}

/// Appends the tag that begins an element. The only error is out of memory.
fn put_opening(output: &mut Vec<u8>, name: &str) -> Result<(), AllocError>
    ensures { OnOk result (output.new.items ≡ output.old.items ++ opening name.now) }
{
    output.extend_from_slice(b"<")?;
    output.extend_from_slice(name.as_bytes())?;
    output.extend_from_slice(b">")
}

/// Appends the tag that ends an element, and the end of its line. The only error is out of memory.
fn put_closing(output: &mut Vec<u8>, name: &str) -> Result<(), AllocError>
    ensures { OnOk result (output.new.items ≡ output.old.items ++ closing name.now) }
{
    output.extend_from_slice(b"</")?;
    output.extend_from_slice(name.as_bytes())?;
    output.extend_from_slice(b">\n")
}

/// Appends a text as XML writes it. The only error is out of memory.
pub(crate) fn put_escaped(output: &mut Vec<u8>, text: &[u8]) -> Result<(), AllocError>
    ensures { OnOk result (output.new.items ≡ output.old.items ++ escaped text.now) }
{
    for byte in text {
        put_byte(output, *byte)?;
    }
    Ok(())
}

/// Appends a byte as XML writes it. The only error is out of memory.
fn put_byte(output: &mut Vec<u8>, byte: u8) -> Result<(), AllocError>
    ensures { OnOk result (output.new.items ≡ output.old.items ++ escaped_byte byte) }
{
    match byte {
        b'&' => output.extend_from_slice(b"&amp;"),
        b'<' => output.extend_from_slice(b"&lt;"),
        b'>' => output.extend_from_slice(b"&gt;"),
        _ => {
            output.push(byte)?;
            Ok(())
        }
    }
}
