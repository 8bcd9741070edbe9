//! The rows files, and the printers that play their rows.

use crate::folders::play_in_folder;
use crate::play::{Detail, network, play};
use crate::row::AdapterRow;
use adapter_printers::{AppSocket, Ipp, IppAddress, IppPrinter, Lpd, Pjl};
use std::alloc::AllocError;
use std::io;

/// What plays the rows of a file.
#[derive(Clone, Copy)]
pub(crate) enum RowPrinter {
    AppSocket(Detail),
    Pjl,
    Lpd,
    Ipp,
    Folder,
}

/// The rows files, and what plays the rows of each.
pub(crate) const FILES: [(&str, RowPrinter); 9] = [
    ("app_socket.rows", RowPrinter::AppSocket(Detail::Events)),
    ("pjl.rows", RowPrinter::Pjl),
    ("lpd.rows", RowPrinter::Lpd),
    ("ipp.rows", RowPrinter::Ipp),
    ("ipp_printers.rows", RowPrinter::Ipp),
    ("http.rows", RowPrinter::Ipp),
    ("folders.rows", RowPrinter::Folder),
    ("servers.rows", RowPrinter::AppSocket(Detail::Events)),
    ("words.rows", RowPrinter::AppSocket(Detail::Words)),
];

/// The time for which a printer may be silent, in ms.
const TIMEOUT: u64 = 300_000;

/// The time for which a printer with IPP may owe an answer, in ms.
const IPP_TIMEOUT: u64 = 3_000;

/// The silence after which a job counts as printed by AppSocket, in ms.
const LINGER: u64 = 30_000;

/// Plays a row. Returns how what came of it differs from the row; nothing, if it doesn't. The error is the system's,
/// of the files of a folder, or out of memory.
pub(crate) fn play_row(
    rt: &HostRuntime,
    printer: RowPrinter,
    row: AdapterRow,
) -> io::Result<Option<String>> {
    match printer {
        RowPrinter::AppSocket(detail) => Ok(play_app_socket(rt, row, detail)?),
        RowPrinter::Pjl => Ok(play_pjl(rt, row)?),
        RowPrinter::Lpd => Ok(play_lpd(rt, row)?),
        RowPrinter::Ipp => Ok(play_ipp(rt, row)?),
        RowPrinter::Folder => play_in_folder(rt, row),
    }
}

/// Plays a row of a printer with AppSocket.
fn play_app_socket(
    rt: &HostRuntime,
    row: AdapterRow,
    detail: Detail,
) -> Result<Option<String>, AllocError> {
    let alloc = rt.alloc();
    let printer = network(alloc, TIMEOUT, AppSocket::new(LINGER))?;
    play(alloc, rt, row, printer, detail)
}

/// Plays a row of a printer with AppSocket and PJL.
fn play_pjl(rt: &HostRuntime, row: AdapterRow) -> Result<Option<String>, AllocError> {
    let alloc = rt.alloc();
    let printer = network(alloc, TIMEOUT, Pjl::new(alloc))?;
    play(alloc, rt, row, printer, Detail::Events)
}

/// Plays a row of a printer with LPD.
fn play_lpd(rt: &HostRuntime, row: AdapterRow) -> Result<Option<String>, AllocError> {
    let alloc = rt.alloc();
    let queue = String::from_str(alloc, "lp")?;
    let name = String::from_str(alloc, "hall")?;
    let printer = network(alloc, TIMEOUT, Lpd::new(alloc, queue, name))?;
    play(alloc, rt, row, printer, Detail::Events)
}

/// Plays a row of a printer with IPP.
fn play_ipp(rt: &HostRuntime, row: AdapterRow) -> Result<Option<String>, AllocError> {
    let alloc = rt.alloc();
    let address = IppAddress {
        uri: String::from_str(alloc, "ipp://printer:631/ipp/print")?,
        host: String::from_str(alloc, "printer:631")?,
        path: String::from_str(alloc, "/ipp/print")?,
    };
    let ipp = Ipp::new(IppPrinter::new(alloc, address), None);
    let printer = network(alloc, IPP_TIMEOUT, ipp)?;
    play(alloc, rt, row, printer, Detail::Events)
}
