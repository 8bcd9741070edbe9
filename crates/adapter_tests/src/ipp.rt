//! Requests and replies of IPP.

use std::alloc::{AllocError, Global};

/// The number of an operation (RFC 8011, section 5.4.15).
pub(crate) fn operation(name: &str) -> Option<u16> {
    match name {
        "Print-Job" => Some(0x0002),
        "Cancel-Job" => Some(0x0008),
        "Get-Job-Attributes" => Some(0x0009),
        "Get-Printer-Attributes" => Some(0x000B),
        _ => None,
    }
}

/// The reply of a printer, with its head of HTTP (RFC 8010, sections 3.1 and 4): the status, the id of the
/// request, and the groups of attributes.
pub(crate) fn reply(
    alloc: Global,
    status: u16,
    request: u32,
    groups: &[u8],
) -> Result<Vec<u8>, AllocError> {
    let length = HEADER.len().saturating_add(groups.len()).saturating_add(9);
    let head = format!(in alloc;
        "HTTP/1.1 200 OK\r\nContent-Type: application/ipp\r\nContent-Length: {length}\r\n\r\n"
    )?;
    let mut bytes = Vec::from_slice(alloc, head.as_bytes())?;
    bytes.extend_from_slice(b"\x01\x01")?;
    bytes.extend_from_slice(&status.to_be_bytes())?;
    bytes.extend_from_slice(&request.to_be_bytes())?;
    bytes.extend_from_slice(HEADER)?;
    bytes.extend_from_slice(groups)?;
    bytes.extend_from_slice(b"\x03")?;
    Ok(bytes)
}

/// The attributes at the head of each reply (RFC 8011, section 4.1.4).
const HEADER: &[u8] =
    b"\x01\x47\x00\x12attributes-charset\x00\x05utf-8\x48\x00\x1battributes-natural-language\x00\x02en";
