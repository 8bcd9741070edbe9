//! The port that a base of URIs names.
ghost use Rattle.std.specs.Prelude.{◌≡◌, ◌==◌};
ghost use Rattle.std.specs.Option.{option_copied};
ghost use Rattle.std.specs.List.{before_first};
ghost use Rattle.announcements.specs.Port.{after_scheme, authority_of, after_colon, port_named, ipp_port};

use text::{find_byte, number_up_to};

/// The port of IPP where a URI names no port (RFC 3510, section 3.2).
const IPP_PORT: u16 = 631;

/// The port of a base of URIs: the port after its host, else 631.
pub fn ipp_port(uri_base: &[u8]) -> u16
    ensures { result ≡ ipp_port uri_base.now }
{
    match port_named(authority_of(uri_base)) {
        Some(port) => port,
        None => IPP_PORT,
    }
}

/// The octets after the scheme and `://`; `None` where there is no scheme.
fn after_scheme(uri: &[u8]) -> Option<&[u8]>
    ensures { option_copied result ≡ after_scheme uri.now }
{
    match find_byte(uri, b':') {
        Some(colon) => uri[colon..].strip_prefix(b"://"),
        None => None,
    }
}

/// The host with its port, up to the first `/`; empty where there is no scheme.
fn authority_of(uri: &[u8]) -> &[u8]
    ensures { result.now ≡ authority_of uri.now }
{
    match after_scheme(uri) {
        Some(rest) => up_to_slash(rest),
        None => &[],
    }
}

fn up_to_slash(rest: &[u8]) -> &[u8]
    ensures { result.now ≡ before_first (λ byte. byte == 47) rest.now }
{
    match find_byte(rest, b'/') {
        Some(end) => &rest[..end],
        None => rest,
    }
}

/// The octets after the last colon, if there is a colon.
fn after_colon(authority: &[u8]) -> Option<&[u8]>
    ensures { option_copied result ≡ after_colon authority.now }
{
    let [first, rest @ ..] = authority else {
        return None;
    };
    match after_colon(rest) {
        Some(port) => Some(port),
        None if *first == b':' => Some(rest),
        None => None,
    }
}

/// The port after a host; `None` where there is no valid port.
fn port_named(authority: &[u8]) -> Option<u16>
    ensures { result ≡ port_named authority.now }
{
    let number = number_up_to(after_colon(authority)?, u64::from(u16::MAX))?;
    Some(number as u16)
}
