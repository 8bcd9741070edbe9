//! The addresses of doors.

use crate::words_error::WordsError;
use clap::ArgMatches;
use std::alloc::Global;
use std::net::{IpAddr, SocketAddr};

/// The error for an invalid value of an option; `wanted` states which values are valid.
pub(crate) fn invalid(alloc: Global, value: &str, option: &str, wanted: &str) -> WordsError {
    let text = format!(in alloc;
        "error: invalid value '{value}' for '--{option}': {wanted}\n\nFor more information, try '--help'.\n"
    );
    match text {
        Ok(text) => WordsError::Fault(text),
        Err(_) => WordsError::OutOfMemory,
    }
}

/// The address of the doors that are given as a port alone.
pub(crate) fn default_address(alloc: Global, found: &ArgMatches<'_>) -> Result<IpAddr, WordsError> {
    let text = found.get_str("address").unwrap_or("127.0.0.1");
    match text.parse::<IpAddr>() {
        Ok(address) => Ok(address),
        Err(_) => Err(invalid(
            alloc,
            text,
            "address <ADDRESS>",
            "an address is written in numbers, as 127.0.0.1, 0.0.0.0 or ::1",
        )),
    }
}

/// The address and the port of a text; a text with a port alone has this address. `None` for any other text.
fn address_of(text: &str, address: IpAddr) -> Option<SocketAddr> {
    match text.parse::<u16>() {
        Ok(port) => Some(SocketAddr::new(address, port)),
        Err(_) => text.parse::<SocketAddr>().ok(),
    }
}

/// The addresses of a door, in the order of the words.
pub(crate) fn addresses(
    alloc: Global,
    found: &ArgMatches<'_>,
    door: &str,
    address: IpAddr,
) -> Result<Vec<SocketAddr>, WordsError> {
    let mut all = Vec::new(alloc);
    for text in found.get_strs(door).unwrap_or(&[]) {
        match address_of(text, address) {
            Some(found) => all.push(found)?,
            None => {
                return Err(invalid(
                    alloc,
                    text,
                    door,
                    "write a port, or an address in numbers and a port, as 631, 127.0.0.1:631 or [::1]:631",
                ));
            }
        }
    }
    Ok(all)
}
