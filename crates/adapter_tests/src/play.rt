//! Rows, played.
use crate::row::AdapterRow;
use crate::script::{Script, Scripted, ScriptedStream};
use adapter::{Adapter, Device};
use adapter_printers::{Connector, HostPort, NetworkPrinter, Peer, Printer, PrinterLink, Protocol};
use std::alloc::{AllocError, Global};
use std::cell::RefCell;
use std::rc::Rc;
use std::rt::Files;

/// The turns that suffice for any row.
const TURNS: usize = 400;

/// The turns after the end of a script, in which the adapter has to do nothing.
const LAST_TURNS: usize = 3;

/// What an adapter writes: each event, or what needs a person, in words.
#[derive(Clone, Copy)]
pub(crate) enum Detail {
    Events,
    Words,
}

/// Plays a row. Returns how what came of it differs from the row; nothing, if it doesn't.
pub(crate) fn play<F: Files, P: Printer<ScriptedStream>>(
    alloc: Global,
    files: &F,
    row: AdapterRow,
    printer: P,
    detail: Detail,
) -> Result<Option<String>, AllocError> {
    let AdapterRow { name, steps, log } = row;
    let script = Rc::new(alloc, RefCell::new(Script::new(alloc, steps)))?;
    let network = Scripted { script };
    let mut adapter = Adapter::new(alloc, device(alloc, detail)?, printer)?;
    let written = run(alloc, files, &network, &mut adapter)?;
    if network.is_played() && written.as_slice() == log.as_bytes() {
        return Ok(None);
    }
    Ok(Some(difference(alloc, &name, network.place(), &written)?))
}

/// What came of a row that differs: the number of the step at which it does, and the log that was written.
fn difference(alloc: Global, name: &str, place: usize, log: &[u8]) -> Result<String, AllocError> {
    let log = String::from_utf8_lossy(alloc, log)?;
    format!(in alloc; "{name}: step {place}, {log:?}")
}

/// The device of each row.
fn device(alloc: Global, detail: Detail) -> Result<Device, AllocError> {
    Ok(Device {
        name: String::from_str(alloc, "hall")?,
        server: HostPort::new(alloc, "server", 8632)?,
        logs: matches!(detail, Detail::Events),
        measures: false,
    })
}

/// Takes turns, between which time passes as the script states. Returns the log.
fn run<F: Files, P: Printer<ScriptedStream>>(
    alloc: Global,
    files: &F,
    network: &Scripted,
    adapter: &mut Adapter<ScriptedStream, P>,
) -> Result<Vec<u8>, AllocError> {
    let mut log = Vec::new(alloc);
    let mut now = 0u64;
    let mut last = 0usize;
    for _ in 0..TURNS {
        adapter.turn(files, network, now);
        if network.close() {
            adapter.give_up(files, now);
            let _is_open = adapter.take_leave();
            last = LAST_TURNS;
        }
        log.extend_from_slice(&adapter.take_log())?;
        now = now.saturating_add(network.pass(adapter.pause(now)));
        if network.is_played() {
            last = last.saturating_add(1);
        }
        if last > LAST_TURNS {
            return Ok(log);
        }
    }
    Ok(log)
}

/// A printer with a protocol, which may be silent for `timeout` ms.
pub(crate) fn network<P: Protocol>(
    alloc: Global,
    timeout: u64,
    protocol: P,
) -> Result<NetworkPrinter<ScriptedStream, P>, AllocError> {
    let caller = Connector::new(alloc, HostPort::new(alloc, "printer", 9100)?, Peer::Printer);
    Ok(NetworkPrinter::new(PrinterLink::new(caller, timeout), protocol))
}
