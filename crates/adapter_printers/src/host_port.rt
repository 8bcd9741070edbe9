//! The address of a peer.
use std::alloc::{AllocError, Global};
use std::io;
use std::net::{Net, SocketAddr, ToSocketAddrs};

/// A host, by its name or address, and a port.
#[derive(Drop)]
pub struct HostPort {
    pub host: String,
    pub port: u16,
}

impl HostPort {
    /// Creates the address of a host and a port. An IPv6 address may be in brackets. The only error is out of
    /// memory.
    pub fn new(alloc: Global, host: &str, port: u16) -> Result<HostPort, AllocError> {
        let bare = host.strip_prefix('[').unwrap_or(host);
        let bare = bare.strip_suffix(']').unwrap_or(bare);
        Ok(HostPort {
            host: String::from_str(alloc, bare)?,
            port,
        })
    }

    /// Reads an address such as `localhost:8632`. The only error is out of memory.
    pub fn read(alloc: Global, text: &str) -> Result<Option<HostPort>, AllocError> {
        let Some((host, port)) = text.rsplit_once(':') else {
            return Ok(None);
        };
        let Ok(port) = port.parse::<u16>() else {
            return Ok(None);
        };
        if host.is_empty() || port == 0 {
            return Ok(None);
        }
        Ok(Some(HostPort::new(alloc, host, port)?))
    }

    /// The addresses of the host, from the system's resolver, in its order.
    pub(crate) fn addresses(&self, alloc: Global, net: &impl Net) -> io::Result<Vec<SocketAddr>> {
        let mut addresses = Vec::new(alloc);
        for address in (self.host.as_str(), self.port).to_socket_addrs(net)? {
            addresses.push(address)?;
        }
        Ok(addresses)
    }
}
