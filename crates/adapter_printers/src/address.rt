//! The address of a printer, for its requests.

/// The address of a printer, as requests to it have it.
#[derive(Drop)]
pub struct IppAddress {
    /// The printer's URI, such as `ipp://host/ipp/print`.
    pub uri: String,
    /// The host, with the port if it isn't 80.
    pub host: String,
    /// The path, which begins with a slash.
    pub path: String,
}
