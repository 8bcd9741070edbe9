//! The limit on sent bytes that wait in this machine.
use libc::net as system;
use mio::net::TcpStream;
use std::os::fd::AsRawFd;

/// The most bytes that may wait. Linux counts its bookkeeping too, and doubles the value.
const BYTES: i32 = 65_536;

/// The length of an option's value in bytes.
const NUMBER_BYTES: u32 = 4;

/// Limits the bytes that the system takes and a peer hasn't taken. Bytes that the system took count as sent,
/// and without the limit it would take some megabytes. Returns whether the limit is set.
pub(crate) fn keep_small(stream: &TcpStream) -> bool {
    let mut value = [0; 16];
    value[..4].copy_from_slice(&BYTES.to_ne_bytes());
    unsafe {
        system::setsockopt(
            stream.as_raw_fd(),
            system::SOL_SOCKET,
            system::SO_SNDBUF,
            &value,
            NUMBER_BYTES,
        ) == 0
    }
}
