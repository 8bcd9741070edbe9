//! The probes of silent peers.
use libc::net as system;
use mio::net::TcpStream;
use std::os::fd::{AsRawFd, RawFd};

/// The time for which a peer is silent before it is probed, in s.
const IDLE: i32 = 30;

/// The time between two probes, in s.
const INTERVAL: i32 = 10;

/// The number of probes without an answer after which the connection is broken.
const PROBES: i32 = 3;

/// The length of an option's value in bytes.
const NUMBER_BYTES: u32 = 4;

/// The bytes of an option's value.
fn value(number: i32) -> [u8; 16] {
    let mut bytes = [0; 16];
    bytes[..4].copy_from_slice(&number.to_ne_bytes());
    bytes
}

/// Sets the times of the probes. Returns whether the system has these options.
fn set_times(fd: RawFd) -> bool {
    let level = system::IPPROTO_TCP;
    let (idle, interval, probes) = (value(IDLE), value(INTERVAL), value(PROBES));
    unsafe {
        system::setsockopt(fd, level, system::TCP_KEEPIDLE, &idle, NUMBER_BYTES) == 0
            && system::setsockopt(fd, level, system::TCP_KEEPINTVL, &interval, NUMBER_BYTES) == 0
            && system::setsockopt(fd, level, system::TCP_KEEPCNT, &probes, NUMBER_BYTES) == 0
    }
}

/// Turns on the system's probes of a silent peer (RFC 9293, section 3.8.4). The system breaks the connection
/// if no probe is answered. Returns whether the probes are on.
pub(crate) fn probe(stream: &TcpStream) -> bool {
    let fd = stream.as_raw_fd();
    let on = value(1);
    set_times(fd)
        && unsafe {
            system::setsockopt(
                fd,
                system::SOL_SOCKET,
                system::SO_KEEPALIVE,
                &on,
                NUMBER_BYTES,
            )
        } == 0
}
