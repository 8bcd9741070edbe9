//! The configuration of an adapter.
use adapter_printers::{HostPort, IppAddress, MediaType};
use base_types::is_name;
use std::alloc::{AllocError, Global};
use url::{ParseError, Url};

/// The port of AppSocket.
const APP_SOCKET: u16 = 9100;

/// The port of LPD (RFC 1179, section 3.1).
const LPD: u16 = 515;

/// The port of IPP (RFC 8010, section 4).
const IPP: u16 = 631;

/// The most bytes of an address. Its URI has at most 1,023 bytes (RFC 8011, section 5.1.6), with a port that
/// isn't written.
const ADDRESS_BYTES: usize = 1_000;

/// The most bytes of a media type (RFC 8011, section 5.1.10).
const MEDIA_TYPE_BYTES: usize = 255;

/// The printer, by its protocol.
#[derive(Drop)]
pub enum Target {
    /// A folder, in which each job becomes a file.
    Folder(String),
    /// A printer with AppSocket.
    AppSocket(HostPort),
    /// A queue of a printer with LPD.
    Lpd(HostPort, String),
    /// A printer with IPP.
    Ipp(HostPort, IppAddress),
}

/// The configuration of an adapter.
#[derive(Drop)]
pub struct AdapterConfig {
    /// The name of the device.
    pub name: String,
    /// The address of the server's port for devices.
    pub server: HostPort,
    pub target: Target,
    /// The media type of each document. `None` if the first bytes of a document determine it.
    pub format: Option<MediaType>,
    /// The time that a folder takes for a page, in ms.
    pub ms_per_page: u32,
    /// The time for which a printer that has taken all bytes may be silent before the job counts as printed,
    /// in ms.
    pub linger: u64,
    /// The longest time in which a job may make no progress at the printer, in ms.
    pub timeout: u64,
    /// Whether a printer with AppSocket is sent PJL too.
    pub pjl: bool,
    /// The number of turns.
    pub turns: u64,
    /// Whether a log is written.
    pub logs: bool,
    /// Whether the printer's rates and its setup are measured and written.
    pub measures: bool,
    /// Whether the program ends when its standard input ends.
    pub until_closed: bool,
}

/// The words of a command line for the configuration.
#[derive(Clone, Copy)]
pub struct ConfigWords<'a> {
    pub name: &'a str,
    pub server: &'a str,
    pub to: &'a str,
    pub format: Option<&'a str>,
    pub ms_per_page: u32,
    /// In seconds.
    pub linger: u32,
    /// In seconds.
    pub timeout: u32,
    pub pjl: bool,
    pub turns: u64,
    pub logs: bool,
    pub measures: bool,
    pub until_closed: bool,
}

/// The word that isn't valid.
#[derive(Clone, Copy)]
pub enum WordFault {
    /// The name isn't that of a device.
    Name,
    /// The server isn't a host and a port.
    Server,
    /// The target isn't one of the known forms.
    To,
    /// PJL is wanted, and the target isn't AppSocket.
    Pjl,
    /// The format isn't a media type.
    Format,
    OutOfMemory,
}

impl From<AllocError> for WordFault {
    fn from(_: AllocError) -> WordFault {
        WordFault::OutOfMemory
    }
}

/// Reads the configuration of the words. The error is the first word that isn't valid. Nothing is opened.
pub fn read_config(alloc: Global, words: ConfigWords<'_>) -> Result<AdapterConfig, WordFault> {
    if !is_name(words.name.as_bytes()) {
        return Err(WordFault::Name);
    }
    let Some(server) = HostPort::read(alloc, words.server)? else {
        return Err(WordFault::Server);
    };
    let target = read_target(alloc, words.to)?;
    if words.pjl && !matches!(&target, Target::AppSocket(_)) {
        return Err(WordFault::Pjl);
    }
    let format = read_format(alloc, words.format)?;
    Ok(AdapterConfig {
        name: String::from_str(alloc, words.name)?,
        server,
        target,
        format,
        ms_per_page: words.ms_per_page,
        linger: u64::from(words.linger) * 1000,
        timeout: u64::from(words.timeout) * 1000,
        pjl: words.pjl,
        turns: words.turns,
        logs: words.logs,
        measures: words.measures,
        until_closed: words.until_closed,
    })
}

/// Reads the media type of each document, if it is given.
fn read_format(alloc: Global, text: Option<&str>) -> Result<Option<MediaType>, WordFault> {
    let Some(text) = text else {
        return Ok(None);
    };
    if !is_media_type(text) {
        return Err(WordFault::Format);
    }
    Ok(Some(MediaType {
        name: String::from_str(alloc, text)?,
    }))
}

/// Returns whether a text is a type and a subtype, with a slash between them and without a space.
fn is_media_type(text: &str) -> bool {
    let Some((kind, subtype)) = text.split_once('/') else {
        return false;
    };
    let prints = text.as_bytes().iter().all(|byte| byte.is_ascii_graphic());
    !kind.is_empty() && !subtype.is_empty() && text.len() <= MEDIA_TYPE_BYTES && prints
}

/// Reads the target of a text.
fn read_target(alloc: Global, text: &str) -> Result<Target, WordFault> {
    if let Some(folder) = text.strip_prefix("file:") {
        if folder.is_empty() {
            return Err(WordFault::To);
        }
        return Ok(Target::Folder(String::from_str(alloc, folder)?));
    }
    let url = match Url::parse(alloc, text) {
        Ok(url) => url,
        Err(ParseError::OutOfMemory) => return Err(WordFault::OutOfMemory),
        Err(_) => return Err(WordFault::To),
    };
    read_url(alloc, &url)
}

/// Reads the target of a URL.
fn read_url(alloc: Global, url: &Url) -> Result<Target, WordFault> {
    let Some(host) = url.host_str() else {
        return Err(WordFault::To);
    };
    if has_more(url) || url.port() == Some(0) || url.as_str().len() > ADDRESS_BYTES {
        return Err(WordFault::To);
    }
    let path = url.path().strip_prefix('/').unwrap_or(url.path());
    let port = url.port();
    match url.scheme() {
        "socket" => read_app_socket(alloc, host, port, path),
        "lpd" => read_lpd(alloc, host, port, path),
        "ipp" => read_ipp(alloc, host, port, path),
        _ => Err(WordFault::To),
    }
}

/// Reads the target of AppSocket, whose URL has no path.
fn read_app_socket(
    alloc: Global,
    host: &str,
    port: Option<u16>,
    path: &str,
) -> Result<Target, WordFault> {
    if !path.is_empty() {
        return Err(WordFault::To);
    }
    let place = HostPort::new(alloc, host, port.unwrap_or(APP_SOCKET))?;
    Ok(Target::AppSocket(place))
}

/// Reads the target of LPD: the path is the queue.
fn read_lpd(alloc: Global, host: &str, port: Option<u16>, path: &str) -> Result<Target, WordFault> {
    if path.is_empty() || path.contains('/') {
        return Err(WordFault::To);
    }
    let queue = String::from_str(alloc, path)?;
    Ok(Target::Lpd(HostPort::new(alloc, host, port.unwrap_or(LPD))?, queue))
}

/// Reads the target of IPP.
fn read_ipp(alloc: Global, host: &str, port: Option<u16>, path: &str) -> Result<Target, WordFault> {
    let port = port.unwrap_or(IPP);
    let address = read_address(alloc, host, port, path)?;
    Ok(Target::Ipp(HostPort::new(alloc, host, port)?, address))
}

/// The address of a printer of IPP, from its host, port, and path without the first slash.
fn read_address(
    alloc: Global,
    host: &str,
    port: u16,
    path: &str,
) -> Result<IppAddress, AllocError> {
    Ok(IppAddress {
        uri: format!(in alloc; "ipp://{host}:{port}/{path}")?,
        host: format!(in alloc; "{host}:{port}")?,
        path: format!(in alloc; "/{path}")?,
    })
}

/// Returns whether a URL has more than a scheme, a host, a port and a path.
fn has_more(url: &Url) -> bool {
    url.query().is_some()
        || url.fragment().is_some()
        || !url.username().is_empty()
        || url.password().is_some()
}
