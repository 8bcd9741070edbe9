//! The server over the system's sockets.
ghost use Rattle.settings_file.specs.Settings.{MeetsLimits};

use crate::failure::{cannot, cannot_with, or_cannot};
use crate::log_output::{LogFile, LogOutput};
use crate::settings::{built_in_text, read_file, settings_in};
use crate::spooling::{SettingsText, serve_spooled};
use crate::tape::TapeFiles;
use command_line::{Log, Serving};
use daemon::{Recording, serve};
use program::ExitStatus;
use settings_file::Settings;
use sockets::{Listening, Sockets};
use std::alloc::AllocError;
use std::io;
use std::net::SocketAddr;
use wires::Door;

/// The number of bytes of the block that [`keep_freed_memory`] frees.
const FREED_BLOCK: usize = 4_194_304;

/// Has the C library keep freed memory for the next documents, up to twice as much as [`FREED_BLOCK`]: its limit
/// follows the largest block that was freed (mallopt(3), `M_TRIM_THRESHOLD`). Else it would return the memory of
/// most documents to the system, and ask for it again. If there is no such block, nothing changes.
fn keep_freed_memory(rt: &HostRuntime) {
    if let Ok(mut block) = Vec::with_capacity(rt.alloc(), FREED_BLOCK) {
        let _kept = begin(&mut block);
    }
}

/// Writes the first byte of a block. It isn't inlined, since a block that nothing uses wouldn't be taken.
#[inline(never)]
fn begin(block: &mut Vec<u8>) -> Result<(), AllocError> {
    block.push(0)?;
    Ok(())
}

/// Reports that a door can't listen at an address, and returns the exit status.
fn cannot_listen(rt: &HostRuntime, listening: Listening, error: io::Error) -> ExitStatus {
    let (door, address) = (listening.door.option(), listening.address);
    match format!(in rt.alloc(); "listen for {door} at {address}") {
        Ok(what) => cannot(rt, &what, error),
        Err(_) => cannot(rt, "listen", error),
    }
}

/// Listens for a door at each of these addresses. An error is reported, and its exit status returned.
fn listen_at(
    rt: &HostRuntime,
    sockets: &mut Sockets,
    door: Door,
    addresses: &[SocketAddr],
) -> Result<(), ExitStatus> {
    for address in addresses {
        let listening = Listening {
            door,
            address: *address,
        };
        if let Err(error) = sockets.listen(rt, listening) {
            return Err(cannot_listen(rt, listening, error));
        }
    }
    Ok(())
}

/// Writes where a door listens: its port, or, where it has several addresses, a line for each address.
fn announce(rt: &HostRuntime, listening: &[Listening], door: Door) -> io::Result<()> {
    let name = door.option();
    let count = listening.iter().filter(|one| one.door == door).count();
    for one in listening {
        let address = one.address;
        if one.door == door && count > 1 {
            println!(rt; "{name} {address}")?;
        } else if one.door == door {
            let port = address.port();
            println!(rt; "{name} {port}")?;
        }
    }
    Ok(())
}

/// Writes where all doors listen. The error is the system's.
fn announce_all(rt: &HostRuntime, sockets: &Sockets) -> io::Result<()> {
    let listening = sockets.listening()?;
    announce(rt, &listening, Door::Ipp)?;
    announce(rt, &listening, Door::Lpd)?;
    announce(rt, &listening, Door::Devices)
}

/// Writes where all doors listen. An error is reported, and its exit status returned.
pub(crate) fn announce_doors(rt: &HostRuntime, sockets: &Sockets) -> Result<(), ExitStatus> {
    or_cannot(rt, "write to standard output", announce_all(rt, sockets))
}

/// Opens the sockets of all doors. An error is reported, and its exit status returned.
fn open(rt: &HostRuntime, serving: &Serving<'_>) -> Result<Sockets, ExitStatus> {
    let made = Sockets::new(rt.alloc(), rt);
    let mut sockets = or_cannot(rt, "ask the system what happens at sockets", made)?;
    listen_at(rt, &mut sockets, Door::Ipp, &serving.ipp)?;
    listen_at(rt, &mut sockets, Door::Lpd, &serving.lpd)?;
    listen_at(rt, &mut sockets, Door::Devices, &serving.devices)?;
    Ok(sockets)
}

/// The destination of the log, if a log is written. An error is reported, and its exit status returned.
fn log_of<'a>(
    rt: &'a HostRuntime,
    serving: &Serving<'a>,
) -> Result<Option<LogOutput<'a>>, ExitStatus> {
    match serving.log {
        None => Ok(None),
        Some(Log::StandardError) => Ok(Some(LogOutput::StandardError(rt.stderr()))),
        Some(Log::File(path)) => match LogFile::open(rt, path) {
            Ok(file) => Ok(Some(LogOutput::File(file))),
            Err(error) => Err(cannot_with(rt, "append to", path, error)),
        },
    }
}

/// The files of the recording, if the day is recorded; the first file is begun. An error is reported, and its
/// exit status returned.
fn tape_of<'a>(
    rt: &'a HostRuntime,
    serving: &Serving<'a>,
    settings: &'a [u8],
) -> Result<Option<TapeFiles<'a>>, ExitStatus> {
    let Some(path) = serving.record else {
        return Ok(None);
    };
    let mut tape = TapeFiles::new(rt, path, settings, serving.record_heads);
    tape.begin()?;
    Ok(Some(tape))
}

/// A recording to a tape, if there is a tape.
fn recording_of<'a, 'b>(
    tape: Option<&'a mut TapeFiles<'b>>,
    heads: bool,
) -> Option<Recording<'a, TapeFiles<'b>>> {
    let Some(tape) = tape else {
        return None;
    };
    Some(Recording { tape, heads })
}

/// Serves with these settings over these sockets, with the log and the recording asked for. An error is
/// reported, and its exit status returned.
fn serve_over(
    rt: &HostRuntime,
    settings: Settings,
    serving: &Serving<'_>,
    sockets: Sockets,
    log: Option<&mut LogOutput<'_>>,
    tape: Option<&mut TapeFiles<'_>>,
) -> Result<ExitStatus, ExitStatus>
    requires { MeetsLimits settings }
{
    let recording = recording_of(tape, serving.record_heads);
    match serve(
        rt.alloc(),
        rt,
        sockets,
        settings,
        serving.turns,
        log,
        recording,
    ) {
        Ok(()) => Ok(ExitStatus::Done),
        Err(error) => Err(cannot(rt, "go on serving", error)),
    }
}

/// Serves with the settings of a text. An error is reported, and its exit status returned.
fn serve_settings(
    rt: &HostRuntime,
    settings: Settings,
    text: &[u8],
    serving: &Serving<'_>,
) -> Result<ExitStatus, ExitStatus>
    requires { MeetsLimits settings }
{
    keep_freed_memory(rt);
    let mut log = log_of(rt, serving)?;
    let sockets = open(rt, serving)?;
    if let Some(spooling) = serving.spool {
        let file = file_of(serving);
        let settings_text = SettingsText { file, text };
        return serve_spooled(
            rt,
            settings,
            settings_text,
            spooling,
            serving.turns,
            sockets,
            &mut log,
        );
    }
    let mut tape = tape_of(rt, serving, text)?;
    announce_doors(rt, &sockets)?;
    serve_over(rt, settings, serving, sockets, log.as_mut(), tape.as_mut())
}

/// The name of the file of the settings in reports.
fn file_of<'a>(serving: &Serving<'a>) -> &'a str {
    serving.settings.unwrap_or("the settings that are built in")
}

/// The text of the settings. An error is reported, and its exit status returned.
fn text_of(rt: &HostRuntime, file: Option<&str>) -> Result<Vec<u8>, ExitStatus> {
    match file {
        Some(file) => read_file(rt, file),
        None => built_in_text(rt),
    }
}

/// Runs `printd serve`: writes where the doors listen, and serves. An error is reported, and its exit status
/// returned.
pub(crate) fn run_serve(rt: &HostRuntime, serving: &Serving<'_>) -> Result<ExitStatus, ExitStatus> {
    let text = text_of(rt, serving.settings)?;
    let settings = settings_in(rt, file_of(serving), &text)?;
    serve_settings(rt, settings, &text, serving)
}
