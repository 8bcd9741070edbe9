//! The system's information on a socket's bytes.
//!
//! Linux reports the number of waiting bytes by the ioctl SIOCOUTQ and by the option TCP_INFO. The kit's C
//! library has no ioctl, and its `getsockopt` takes neither that option nor a value of more than 16 bytes.
//! The same number is in the tables of this machine's sockets, which are files.
//! tables of this machine's sockets, which are files.
use mio::net::TcpStream;
use std::alloc::Global;
use std::fs::File;
use std::io::{BufRead, BufReader};
use std::os::fd::AsRawFd;
use std::os::unix::fs::MetadataExt;
use std::rt::Files;
use std::{fs, io};

/// The tables of the sockets of IPv4 and of IPv6: a line for each socket, after a line of headings.
const TABLES: [&str; 2] = ["/proc/self/net/tcp", "/proc/self/net/tcp6"];

/// The index of the word in a line with the waiting bytes, to be sent and to be read, and the number of words
/// after it at which the socket's number is.
const WAITING: usize = 4;

const NUMBER_AFTER: usize = 4;

/// Returns how many bytes that a socket took its peer hasn't acknowledged, if the system reports it. The end
/// of the writing side counts as a byte.
pub(crate) fn unacknowledged(
    alloc: Global,
    files: &impl Files,
    stream: &TcpStream,
) -> io::Result<Option<u64>> {
    let link = format!(in alloc; "/proc/self/fd/{}", stream.as_raw_fd())?;
    let number = fs::metadata(files, link.as_str())?.ino();
    for &table in &TABLES {
        let bytes = look_up(alloc, files, table, number)?;
        if bytes.is_some() {
            return Ok(bytes);
        }
    }
    Ok(None)
}

/// The entry of a table for the socket of this number, if there is one.
fn look_up(alloc: Global, files: &impl Files, table: &str, number: u64) -> io::Result<Option<u64>> {
    let reader = BufReader::new(alloc, File::open(files, table)?)?;
    for line in reader.lines(alloc) {
        let bytes = bytes_of(line?.as_str(), number);
        if bytes.is_some() {
            return Ok(bytes);
        }
    }
    Ok(None)
}

/// The entry of a line, if it is that of the socket of this number.
fn bytes_of(line: &str, number: u64) -> Option<u64> {
    let mut words = line.split_whitespace();
    let waiting = words.nth(WAITING)?;
    let inode = words.nth(NUMBER_AFTER)?;
    if inode.parse::<u64>() != Ok(number) {
        return None;
    }
    let (sending, _reading) = waiting.split_once(':')?;
    u64::from_str_radix(sending, 16).ok()
}
