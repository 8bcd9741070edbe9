//! The run of an adapter.
use crate::adapter::{Adapter, Device};
use crate::clock::millis_since;
use crate::config::{AdapterConfig, Target};
use adapter_printers::{
    AppSocket, Connector, Folder, HostPort, Ipp, IppPrinter, Link, Lpd, NetworkPrinter, Peer, Pjl,
    Printer, PrinterLink, Protocol, Readiness, Sockets, try_folder,
};
use mio::unix::SourceFd;
use mio::{Events, Interest, Poll, Token};
use std::alloc::Global;
use std::io;
use std::io::Write;
use std::net::Net;
use std::os::fd::RawFd;
use std::rt::Files;
use std::time::{Clock, Duration, Instant};

/// The token of standard input at the poll, and its descriptor.
const INPUT: Token = Token(2);

const STANDARD_INPUT: RawFd = 0;

/// The longest time for which an adapter that ends reads from the server, in ms, and the longest pause then.
const LEAVING: u64 = 2_000;

const LEAVING_PAUSE: u64 = 50;

/// The most sockets that one wait reports.
const EVENTS: usize = 8;

/// How long an adapter runs: the number of its turns, and whether it ends with its input.
#[derive(Clone, Copy)]
struct Life {
    turns: u64,
    until_closed: bool,
}

/// Runs an adapter by its configuration. It writes a line for each event to the log, and after each job the
/// rates and the setup of the printer to the figures, if these are wanted. A failed write doesn't stop it.
/// The error is the clock's or the system's, or out of memory at the start.
pub fn attach<R: Net + Files + Clock, L: Write, F: Write>(
    alloc: Global,
    rt: &R,
    plan: AdapterConfig,
    log: &mut L,
    figures: &mut F,
) -> io::Result<()> {
    let printer_name = plan.name.clone()?;
    let AdapterConfig {
        name,
        server,
        target,
        format,
        ms_per_page,
        linger,
        timeout,
        pjl,
        turns,
        logs,
        measures,
        until_closed,
    } = plan;
    let device = Device {
        name,
        server,
        logs,
        measures,
    };
    let life = Life {
        turns,
        until_closed,
    };
    match target {
        Target::Folder(path) => {
            let printer = Folder::new(alloc, path, printer_name, format, ms_per_page);
            run(alloc, rt, device, life, printer, log, figures)
        }
        Target::AppSocket(place) if pjl => {
            let printer = network_printer(alloc, place, timeout, Pjl::new(alloc));
            run(alloc, rt, device, life, printer, log, figures)
        }
        Target::AppSocket(place) => {
            let printer = network_printer(alloc, place, timeout, AppSocket::new(linger));
            run(alloc, rt, device, life, printer, log, figures)
        }
        Target::Lpd(place, queue) => {
            let lpd = Lpd::new(alloc, queue, printer_name);
            let printer = network_printer(alloc, place, timeout, lpd);
            run(alloc, rt, device, life, printer, log, figures)
        }
        Target::Ipp(place, address) => {
            let ipp = Ipp::new(IppPrinter::new(alloc, address), format);
            let printer = network_printer(alloc, place, timeout, ipp);
            run(alloc, rt, device, life, printer, log, figures)
        }
    }
}

/// Tries what can be tried of a configuration before the adapter runs: whether a folder can be written to.
pub fn try_target<F: Files>(alloc: Global, files: &F, plan: &AdapterConfig) -> io::Result<()> {
    match &plan.target {
        Target::Folder(path) => try_folder(alloc, files, path.as_str(), plan.name.as_str()),
        _ => Ok(()),
    }
}

/// Creates a printer with a protocol at an address, which may be silent for this many ms.
fn network_printer<P: Protocol>(
    alloc: Global,
    place: HostPort,
    timeout: u64,
    protocol: P,
) -> NetworkPrinter<Link, P> {
    let caller = Connector::new(alloc, place, Peer::Printer);
    NetworkPrinter::new(PrinterLink::new(caller, timeout), protocol)
}

/// Creates the adapter of a device and its printer, and takes its turns.
fn run<P: Printer<Link>, R: Net + Files + Clock, L: Write, F: Write>(
    alloc: Global,
    rt: &R,
    device: Device,
    life: Life,
    printer: P,
    log: &mut L,
    figures: &mut F,
) -> io::Result<()> {
    let mut poll = Poll::new(rt)?;
    if life.until_closed {
        poll.registry()
            .register(&mut SourceFd(&STANDARD_INPUT), INPUT, Interest::READABLE)?;
    }
    let mut adapter = Adapter::new(alloc, device, printer)?;
    take_turns(alloc, rt, &mut adapter, &mut poll, life.turns, log, figures)
}

/// Takes the turns, with waits between them, or those up to the end of the input.
fn take_turns<P: Printer<Link>, R: Net + Files + Clock, L: Write, F: Write>(
    alloc: Global,
    rt: &R,
    adapter: &mut Adapter<Link, P>,
    poll: &mut Poll,
    turns: u64,
    log: &mut L,
    figures: &mut F,
) -> io::Result<()> {
    let mut events = Events::with_capacity(alloc, EVENTS)?;
    let start = Instant::now(rt)?;
    for _ in 0..turns {
        let now = millis_since(rt, &start)?;
        take_turn(alloc, rt, adapter, poll, now);
        let _logged = log.write_all(&adapter.take_log());
        let _written = figures.write_all(&adapter.take_figures());
        poll.poll(&mut events, Some(Duration::from_millis(adapter.pause(now))))?;
        if notify(adapter, &events) {
            adapter.give_up(rt, millis_since(rt, &start)?);
            let left = leave(adapter, poll, &mut events);
            let _last_logged = log.write_all(&adapter.take_log());
            return left;
        }
    }
    Ok(())
}

/// Has the adapter take a turn, over the network of the runtime.
fn take_turn<P: Printer<Link>, R: Net + Files>(
    alloc: Global,
    rt: &R,
    adapter: &mut Adapter<Link, P>,
    poll: &Poll,
    now: u64,
) {
    let network = Sockets {
        alloc,
        net: rt,
        poll,
    };
    adapter.turn(rt, &network, now);
}

/// Hands the events of a wait to the adapter. Returns whether the input has ended.
fn notify<P: Printer<Link>>(adapter: &mut Adapter<Link, P>, events: &Events<Global>) -> bool {
    let mut ended = false;
    for event in events.iter() {
        ended |= event.token() == INPUT && event.is_read_closed();
        if let Some(readiness) = Readiness::of(event) {
            adapter.notified(readiness);
        }
    }
    ended
}

/// Writes the last bytes to the server, and waits for a limited time until it has ended the connection too.
fn leave<P: Printer<Link>>(
    adapter: &mut Adapter<Link, P>,
    poll: &mut Poll,
    events: &mut Events<Global>,
) -> io::Result<()> {
    for _ in 0..LEAVING / LEAVING_PAUSE {
        if !adapter.take_leave() {
            return Ok(());
        }
        poll.poll(events, Some(Duration::from_millis(LEAVING_PAUSE)))?;
        notify(adapter, events);
    }
    Ok(())
}
